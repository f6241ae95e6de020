//! Marks on layers, by nuh_layer_id.

ghost use Rattle.std.specs.Prelude.{◌≡◌, ℕ, ◌||◌, ◌&&◌, false, get_or, nat_eq, IfOk};
ghost use Rattle.std.specs.List.{list_any};
ghost use Rattle.mv_layers.specs.LayerInfos.{is_known};
ghost use Rattle.mv_layers.specs.OutputLayers.{is_among, is_necessary};

use crate::infos::LayerInfo;
use std::alloc::{AllocError, Global};
use std::marker::Model;

/// Whether each number that a byte can have is marked.
#[derive(Debug, Drop)]
pub(crate) struct Marks {
    marked: Vec<bool>,
}

impl Model for Marks {
    ghost use Rattle.std.specs.Prelude.{◌≡◌, Bool, List, length};

    ghost Value = { List Bool };

    ghost view = { λ m. m.marked.items };

    ghost invariant = { λ m. length m.marked.items ≡ 256 };
}

impl Marks {
    /// No marks.
    pub(crate) fn none(alloc: Global) -> Result<Marks, AllocError>
        ensures { IfOk result (λ m. (k : ℕ) → get_or m k false ≡ false) }
    {
        Ok(Marks {
            marked: vec![in alloc; false; 256]?,
        })
    }

    /// Whether this layer is marked.
    pub(crate) fn has(&self, id: usize) -> bool
        ensures { result ≡ get_or self.now id false }
    {
        match self.marked.get(id) {
            Some(mark) => *mark,
            None => false,
        }
    }

    /// Marks this layer too.
    fn mark(&mut self, id: u8)
        ensures { (k : ℕ) → get_or self.new k false ≡ (nat_eq id k || get_or self.old k false) }
    {
        self.marked[usize::from(id)] = true;
    }

    /// Marks these layers too.
    fn mark_all(&mut self, ids: &[u8])
        ensures { (k : ℕ) → get_or self.new k false ≡ (is_among ids.now k || get_or self.old k false) }
    {
        for id in ids {
            self.mark(*id);
        }
    }

    // Marks the closure of a layer too, where the layer is an output.
    fn mark_closure(&mut self, outputs: &[u8], info: &LayerInfo)
        ensures { (k : ℕ) → get_or self.new k false ≡ ((is_among outputs.now info.now.layer && is_among info.now.closure k) || get_or self.old k false) }
    {
        if outputs.contains(&info.layer) {
            self.mark_all(&info.closure);
        }
    }

    /// The layers of a video parameter set.
    pub(crate) fn known(alloc: Global, infos: &[LayerInfo]) -> Result<Marks, AllocError>
        ensures { IfOk result (λ m. (k : ℕ) → get_or m k false ≡ is_known infos.now k) }
    {
        let mut marks = Marks::none(alloc)?;
        for info in infos {
            marks.mark(info.layer);
        }
        Ok(marks)
    }

    /// The outputs of an output layer set with their closures.
    pub(crate) fn necessary(
        alloc: Global,
        infos: &[LayerInfo],
        outputs: &[u8],
    ) -> Result<Marks, AllocError>
        ensures { IfOk result (λ m. (k : ℕ) → get_or m k false ≡ is_necessary infos.now outputs.now k) }
    {
        let mut marks = Marks::none(alloc)?;
        for info in infos {
            marks.mark_closure(outputs, info);
        }
        Ok(marks)
    }
}

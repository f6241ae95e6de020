//! Loops of single fields, printed.

ghost use Rattle.std.specs.Prelude.{◌≡◌, ◌≤◌, option_map, OnOk};
ghost use Rattle.mv_syntax.specs.Table.{when, Valid};
ghost use Rattle.mv_syntax.specs.Loops.{us, ues};
ghost use Rattle.mv_syntax.specs.Printed.{printed_in};

use crate::printer::Printer;
use std::alloc::AllocError;

impl Printer {
    /// Prints a loop of `n` fields u(width) of at most 8 bits each under one name, the first with the index `first`.
    #[tactic(auto, using(mv_syntax::proofs::PrintingLoops::print_item_steps), unfolding(mv_syntax::specs::Loops::each))]
    pub fn u8s(
        &mut self,
        name: &str,
        first: u32,
        n: u32,
        width: u8,
        fields: &[u8],
    ) -> Result<(), AllocError>
        requires width { width ≤ 8 }
        requires fits { Valid (us first n width) fields.now }
        ensures { OnOk result (self.new ≡ printed_in (us first n width) name.now fields.now self.old) }
    {
        for i in 0..n {
            let outer = self.open(u64::from(first) + u64::from(i))?;
            self.u8(name, width, fields[i as usize])?;
            self.close(outer);
        }
        Ok(())
    }

    /// The same, where they are present.
    pub fn u8s_if(
        &mut self,
        present: bool,
        name: &str,
        first: u32,
        n: u32,
        width: u8,
        fields: &Option<Vec<u8>>,
    ) -> Result<(), AllocError>
        requires width { width ≤ 8 }
        requires fits { Valid (when present (us first n width)) (option_map (λ v. v.items) fields.now) }
        ensures { OnOk result (self.new ≡ printed_in (when present (us first n width)) name.now (option_map (λ v. v.items) fields.now) self.old) }
    {
        match fields {
            Some(fields) => self.u8s(name, first, n, width, fields),
            None => Ok(()),
        }
    }

    /// Prints a loop of `n` fields u(width) of at most 32 bits each under one name, the first with the index `first`.
    #[tactic(auto, using(mv_syntax::proofs::PrintingLoops::print_item_steps), unfolding(mv_syntax::specs::Loops::each))]
    pub fn u32s(
        &mut self,
        name: &str,
        first: u32,
        n: u32,
        width: u8,
        fields: &[u32],
    ) -> Result<(), AllocError>
        requires width { width ≤ 32 }
        requires fits { Valid (us first n width) fields.now }
        ensures { OnOk result (self.new ≡ printed_in (us first n width) name.now fields.now self.old) }
    {
        for i in 0..n {
            let outer = self.open(u64::from(first) + u64::from(i))?;
            self.u32(name, width, fields[i as usize])?;
            self.close(outer);
        }
        Ok(())
    }

    /// Prints a loop of `n` fields ue(v) under one name, the first with the index `first`.
    #[tactic(auto, using(mv_syntax::proofs::PrintingLoops::print_item_steps), unfolding(mv_syntax::specs::Loops::each))]
    pub fn ues(&mut self, name: &str, first: u32, n: u32, fields: &[u32]) -> Result<(), AllocError>
        requires { Valid (ues first n) fields.now }
        ensures { OnOk result (self.new ≡ printed_in (ues first n) name.now fields.now self.old) }
    {
        for i in 0..n {
            let outer = self.open(u64::from(first) + u64::from(i))?;
            self.ue(name, fields[i as usize])?;
            self.close(outer);
        }
        Ok(())
    }

    /// The same, where they are present.
    pub fn ues_if(
        &mut self,
        present: bool,
        name: &str,
        first: u32,
        n: u32,
        fields: &Option<Vec<u32>>,
    ) -> Result<(), AllocError>
        requires { Valid (when present (ues first n)) (option_map (λ v. v.items) fields.now) }
        ensures { OnOk result (self.new ≡ printed_in (when present (ues first n)) name.now (option_map (λ v. v.items) fields.now) self.old) }
    {
        match fields {
            Some(fields) => self.ues(name, first, n, fields),
            None => Ok(()),
        }
    }
}

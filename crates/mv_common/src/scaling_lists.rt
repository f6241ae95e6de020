ghost use Rattle.std.specs.Prelude.{◌≡◌, ◌≤◌, ◌+◌, ◌/◌, ◌++◌, OnOk, OnErr, if◌then◌else◌};
ghost use Rattle.mv_syntax.specs.Table.{se, when, Valid, bits_of};
ghost use Rattle.mv_syntax.specs.Printed.{printed};
ghost use Rattle.mv_bits.specs.Cursor.{Takes};
ghost use Rattle.mv_fields.specs.Reading.{AnswersShared, ReadsShared, ReadsSharedAs, TakesBy};
ghost use Rattle.mv_common.specs.ScalingLists.{matrix_id, num_coefficients, coefficient, coefficients, scaling_list, matrix_step, lists_of_size, scaling_list_data};

use mv_bits::{BitReader, BitWriter};
use mv_fields::{Fault, Limit, Printer, se_if, u8_of, ue_if};
use std::alloc::{AllocError, Global};
use std::marker::Model;

/// The scaling lists of a parameter set, scaling_list_data (7.3.4).
#[derive(Debug, Drop)]
pub struct ScalingLists {
    /// The lists of the sizes 0 to 3.
    pub sizes: Vec<ScalingListsOfSize>,
}

impl Model for ScalingLists {
    ghost use Rattle.std.specs.Prelude.{List};
    ghost use Rattle.mv_common.specs.ScalingListValue.{ScalingListValue};

    ghost Value = { List (List ScalingListValue) };

    ghost view = { λ a. a.sizes.items };
}

/// The scaling lists of one size.
#[derive(Debug, Drop)]
pub struct ScalingListsOfSize {
    /// The lists of the matrices 0 to 5; of size 3 those of the matrices 0 and 3.
    pub lists: Vec<ScalingList>,
}

impl Model for ScalingListsOfSize {
    ghost use Rattle.std.specs.Prelude.{List};
    ghost use Rattle.mv_common.specs.ScalingListValue.{ScalingListValue};

    ghost Value = { List ScalingListValue };

    ghost view = { λ a. a.lists.items };
}

/// One scaling list. A field that is not coded is `None`, a loop that is not coded is an empty list.
#[derive(Debug, Drop)]
pub struct ScalingList {
    pub scaling_list_pred_mode_flag: u8,
    pub scaling_list_pred_matrix_id_delta: Option<u32>,
    pub scaling_list_dc_coef_minus8: Option<i32>,
    pub scaling_list_delta_coef: Vec<i32>,
}

impl Model for ScalingList {
    ghost use Rattle.mv_common.specs.ScalingListValue.{ScalingListValue};

    ghost Value = { ScalingListValue };

    ghost view = { λ a. record {
      scaling_list_pred_mode_flag = a.scaling_list_pred_mode_flag;
      scaling_list_pred_matrix_id_delta = a.scaling_list_pred_matrix_id_delta;
      scaling_list_dc_coef_minus8 = a.scaling_list_dc_coef_minus8;
      scaling_list_delta_coef = a.scaling_list_delta_coef.items;
    } };
}

/// The scaling lists need no facts from outside.
#[derive(Clone, Copy)]
pub struct ScalingArgs {}

/// How many coefficients a list of size `s` has where they are coded, and none where they are not.
#[tactic(auto, using(crate::proofs::ScalingLaws::many_coefficients))]
fn count_coefficients(coded: bool, s: u8) -> u8
    ensures { result ≡ (if coded then num_coefficients s else 0) }
{
    if !coded {
        return 0;
    }
    if s == 0 { 16 } else { 64 }
}

/// How many lists size `s` has.
fn count_lists(s: u8) -> u8
    ensures is { result ≡ 6 / matrix_step s }
    ensures most { result ≤ 6 }
{
    if s == 3 { 2 } else { 6 }
}

#[tactic(auto, unfolding(crate::specs::ScalingLists::coefficient))]
fn coefficient_of(bits: &mut BitReader, k: u8) -> Result<i32, Fault<Limit>>
    ensures { ReadsShared (coefficient k) bits.old bits.new result }
{
    Ok(bits.se()?)
}

#[tactic(auto, unfolding(crate::specs::ScalingLists::coefficient))]
fn print_coefficient(out: &mut Printer, v: i32, k: usize) -> Result<(), AllocError>
    requires { Valid (coefficient k) v }
    ensures { OnOk result (out.new ≡ printed (coefficient k) v out.old) }
{
    out.se("scaling_list_delta_coef", v)
}

#[tactic(auto, using(mv_syntax::proofs::LoopLaws::item_steps), unfolding(crate::specs::ScalingLists::coefficients))]
fn coefficients_of(
    alloc: Global,
    bits: &mut BitReader,
    coded: bool,
    s: u8,
) -> Result<Vec<i32>, Fault<Limit>>
    ensures { ReadsSharedAs (λ v. v.items) (coefficients coded s) bits.old bits.new result }
{
    let turns = count_coefficients(coded, s);
    let mut list = Vec::new(alloc);
    for k in 0..turns {
        list.push(coefficient_of(bits, k)?)?;
    }
    Ok(list)
}

#[tactic(auto, using(mv_syntax::proofs::PrintingLoops::print_item_steps), unfolding(crate::specs::ScalingLists::coefficients))]
fn print_coefficients(out: &mut Printer, list: &[i32], coded: bool, s: u8) -> Result<(), AllocError>
    requires { Valid (coefficients coded s) list.now }
    ensures { OnOk result (out.new ≡ printed (coefficients coded s) list.now out.old) }
{
    for k in 0..list.len() {
        let outer = out.open(k as u64)?;
        print_coefficient(out, list[k], k)?;
        out.close(outer);
    }
    Ok(())
}

#[tactic(auto, unfolding(crate::specs::ScalingLists::scaling_list))]
fn scaling_list_of(alloc: Global, bits: &mut BitReader, s: u8) -> Result<ScalingList, Fault<Limit>>
    ensures { ReadsShared (scaling_list s) bits.old bits.new result }
{
    let scaling_list_pred_mode_flag = u8_of(bits, 1)?;
    let has_coefficients = scaling_list_pred_mode_flag == 1;
    let scaling_list_pred_matrix_id_delta = ue_if(bits, !has_coefficients)?;
    let scaling_list_dc_coef_minus8 = se_if(bits, has_coefficients && s > 1)?;
    let scaling_list_delta_coef = coefficients_of(alloc, bits, has_coefficients, s)?;
    Ok(ScalingList {
        scaling_list_pred_mode_flag,
        scaling_list_pred_matrix_id_delta,
        scaling_list_dc_coef_minus8,
        scaling_list_delta_coef,
    })
}

#[tactic(auto, unfolding(crate::specs::ScalingLists::scaling_list))]
fn print_scaling_list(out: &mut Printer, v: &ScalingList, s: u8) -> Result<(), AllocError>
    requires { Valid (scaling_list s) v.now }
    ensures { OnOk result (out.new ≡ printed (scaling_list s) v.now out.old) }
{
    let has_coefficients = v.scaling_list_pred_mode_flag == 1;
    out.flag("scaling_list_pred_mode_flag", v.scaling_list_pred_mode_flag)?;
    out.ue_if(
        !has_coefficients,
        "scaling_list_pred_matrix_id_delta",
        v.scaling_list_pred_matrix_id_delta,
    )?;
    out.se_if(
        has_coefficients && s > 1,
        "scaling_list_dc_coef_minus8",
        v.scaling_list_dc_coef_minus8,
    )?;
    print_coefficients(out, &v.scaling_list_delta_coef, has_coefficients, s)?;
    Ok(())
}

#[tactic(auto, using(mv_syntax::proofs::LoopLaws::item_steps), unfolding(mv_syntax::specs::Loops::each, crate::specs::ScalingLists::lists_of_size))]
fn lists_of_size_of(
    alloc: Global,
    bits: &mut BitReader,
    s: u8,
) -> Result<ScalingListsOfSize, Fault<Limit>>
    ensures { ReadsShared (lists_of_size s) bits.old bits.new result }
{
    let turns = count_lists(s);
    let mut lists = Vec::new(alloc);
    for k in 0..turns {
        lists.push(scaling_list_of(alloc, bits, s)?)?;
    }
    Ok(ScalingListsOfSize { lists })
}

/// The number of the matrix of turn k of size `s`.
fn matrix_id(s: u8, k: u8) -> u8
    requires { k ≤ 6 }
    ensures { result ≡ matrix_id s k }
{
    if s == 3 { 3 * k } else { k }
}

#[tactic(auto, using(mv_syntax::proofs::PrintingLoops::print_numbered_steps), unfolding(mv_syntax::specs::Loops::each, crate::specs::ScalingLists::lists_of_size))]
fn print_lists_of_size(out: &mut Printer, lists: &[ScalingList], s: u8) -> Result<(), AllocError>
    requires { Valid (lists_of_size s) lists.now }
    ensures { OnOk result (out.new ≡ printed (lists_of_size s) lists.now out.old) }
{
    let turns = count_lists(s);
    for k in 0..turns {
        let outer = out.open(u64::from(matrix_id(s, k)))?;
        print_scaling_list(out, &lists[usize::from(k)], s)?;
        out.close(outer);
    }
    Ok(())
}

#[tactic(auto, using(mv_syntax::proofs::LoopLaws::item_steps), unfolding(crate::specs::ScalingLists::scaling_list_data))]
fn scaling_lists_of(alloc: Global, bits: &mut BitReader) -> Result<ScalingLists, Fault<Limit>>
    ensures { ReadsShared scaling_list_data bits.old bits.new result }
{
    let mut sizes = Vec::new(alloc);
    for s in 0..4 {
        sizes.push(lists_of_size_of(alloc, bits, s)?)?;
    }
    Ok(ScalingLists { sizes })
}

fn print_size(out: &mut Printer, v: &ScalingListsOfSize, s: u8) -> Result<(), AllocError>
    requires { Valid (lists_of_size s) v.now }
    ensures { OnOk result (out.new ≡ printed (lists_of_size s) v.now out.old) }
{
    print_lists_of_size(out, &v.lists, s)
}

#[tactic(auto, using(mv_syntax::proofs::PrintingLoops::print_item_steps), unfolding(crate::specs::ScalingLists::scaling_list_data))]
fn print_sizes(out: &mut Printer, sizes: &[ScalingListsOfSize]) -> Result<(), AllocError>
    requires { Valid scaling_list_data sizes.now }
    ensures { OnOk result (out.new ≡ printed scaling_list_data sizes.now out.old) }
{
    for s in 0..4u8 {
        let outer = out.open(u64::from(s))?;
        print_size(out, &sizes[usize::from(s)], s)?;
        out.close(outer);
    }
    Ok(())
}

fn print_scaling_lists(out: &mut Printer, v: &ScalingLists) -> Result<(), AllocError>
    requires { Valid scaling_list_data v.now }
    ensures { OnOk result (out.new ≡ printed scaling_list_data v.now out.old) }
{
    print_sizes(out, &v.sizes)
}

impl ScalingLists {
    /// Reads scaling_list_data (7.3.4).
    ///
    /// `NoBits` where the bits end before or in a field or hold no code there; `Memory` where memory runs out. No field
    /// has a limit. After a fault the reader stands where it stood.
    pub fn read(
        alloc: Global,
        bits: &mut BitReader,
        _args: &ScalingArgs,
    ) -> Result<ScalingLists, Fault<Limit>>
        ensures { AnswersShared scaling_list_data bits.old bits.new result }
    {
        let mut ahead = bits.fork();
        match scaling_lists_of(alloc, &mut ahead) {
            Ok(value) => {
                *bits = ahead;
                Ok(value)
            }
            Err(fault) => Err(fault),
        }
    }

    /// Prints scaling_list_data (7.3.4).
    ///
    /// `AllocError` where memory runs out.
    pub fn print(&self, out: &mut Printer, _args: &ScalingArgs) -> Result<(), AllocError>
        requires { Valid scaling_list_data self.now }
        ensures { OnOk result (out.new ≡ printed scaling_list_data self.now out.old) }
    {
        print_scaling_lists(out, self)
    }

    /// Writes scaling_list_data (7.3.4).
    ///
    /// `AllocError` where memory runs out: the writer is then unchanged.
    pub fn write(&self, out: &mut BitWriter, args: &ScalingArgs) -> Result<(), AllocError>
        requires { Valid scaling_list_data self.now }
        ensures ok { OnOk result (out.new ≡ out.old ++ bits_of scaling_list_data self.now) }
        ensures err { OnErr result (out.new ≡ out.old) }
    {
        let mut own = Printer::beside(out);
        self.print(&mut own, args)?;
        own.append_to(out)
    }
}

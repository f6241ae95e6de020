//! A short-term reference picture set: read, and printed.

ghost use Rattle.std.specs.Prelude.{◌≡◌, ◌≤◌, ◌<◌, ◌+◌, ◌-◌, ◌++◌, ◌&&◌, Bool, true, not, length, nat_lt, nat_eq, codes, OnOk, OnErr, IfOk};
ghost use Rattle.mv_syntax.specs.Table.{u, ue, named, when, Valid, bits_of};
ghost use Rattle.mv_syntax.specs.inner.Reader.{read};
ghost use Rattle.mv_syntax.specs.Words.{◌unless◌, over, or_zero, coded_set};
ghost use Rattle.mv_syntax.specs.Loops.{columns, each};
ghost use Rattle.mv_syntax.specs.Printed.{printed};
ghost use Rattle.mv_fields.specs.Reading.{ReadsShared, ReadsSharedAs, AnswersShared};
ghost use Rattle.mv_short_sets.specs.Deltas.{reference, deltas, deltas_of_each};
ghost use Rattle.mv_short_sets.specs.ShortSet.{candidate_flags, delta_poc_minus1, used_by_curr_pic_flag_of, picture, num_candidates, set_fields, st_ref_pic_set, AreShortArgs};

use crate::delta::Side;
use crate::deltas::{deltas_of, reference_deltas};
use mv_bits::{BitReader, BitWriter};
use mv_fields::{
    Fault, Limit, Printer, coded_set, or_zero, u8_if, u8_of, ue_limited, ue_limited_if,
};
use std::alloc::{AllocError, Global};
use std::marker::Model;

/// A short-term reference picture set, st_ref_pic_set (7.3.7). A field that is not coded is `None`, a loop that is not coded
/// is an empty list.
#[derive(Debug, Drop)]
pub struct ShortSet {
    pub inter_ref_pic_set_prediction_flag: Option<u8>,
    pub delta_idx_minus1: Option<u32>,
    pub delta_rps_sign: Option<u8>,
    pub abs_delta_rps_minus1: Option<u32>,
    pub used_by_curr_pic_flag: Vec<u8>,
    pub use_delta_flag: Vec<Option<u8>>,
    pub num_negative_pics: Option<u32>,
    pub num_positive_pics: Option<u32>,
    pub delta_poc_s0_minus1: Vec<u32>,
    pub used_by_curr_pic_s0_flag: Vec<u8>,
    pub delta_poc_s1_minus1: Vec<u32>,
    pub used_by_curr_pic_s1_flag: Vec<u8>,
}

impl Model for ShortSet {
    ghost use Rattle.mv_short_sets.specs.ShortSetValue.{ShortSetValue};

    ghost Value = { ShortSetValue };

    ghost view = { λ s. record {
      inter_ref_pic_set_prediction_flag = s.inter_ref_pic_set_prediction_flag;
      delta_idx_minus1 = s.delta_idx_minus1;
      delta_rps_sign = s.delta_rps_sign;
      abs_delta_rps_minus1 = s.abs_delta_rps_minus1;
      used_by_curr_pic_flag = s.used_by_curr_pic_flag.items;
      use_delta_flag = s.use_delta_flag.items;
      num_negative_pics = s.num_negative_pics;
      num_positive_pics = s.num_positive_pics;
      delta_poc_s0_minus1 = s.delta_poc_s0_minus1.items;
      used_by_curr_pic_s0_flag = s.used_by_curr_pic_s0_flag.items;
      delta_poc_s1_minus1 = s.delta_poc_s1_minus1.items;
      used_by_curr_pic_s1_flag = s.used_by_curr_pic_s1_flag.items;
    } };
}

/// What a short-term reference picture set is read and written by.
#[derive(Clone, Copy)]
pub struct ShortArgs<'a> {
    /// Which set it is: at most `num`, and `num` for the set of a slice header.
    pub idx: u8,
    /// How many sets the sequence parameter set has, at most 64.
    pub num: u8,
    /// The sets 0 to `idx` - 1, each valid.
    pub earlier: &'a [ShortSet],
}

#[tactic(auto, unfolding(crate::specs::ShortSet::candidate_flags))]
fn candidate_flags_of(bits: &mut BitReader) -> Result<(u8, Option<u8>), Fault<Limit>>
    ensures { ReadsSharedAs (λ v. (v.0, v.1)) candidate_flags bits.old bits.new result }
{
    let used_by_curr_pic_flag = u8_of(bits, 1)?;
    let use_delta_flag = u8_if(bits, used_by_curr_pic_flag != 1, 1)?;
    Ok((used_by_curr_pic_flag, use_delta_flag))
}

#[tactic(auto, unfolding(crate::specs::ShortSet::candidate_flags))]
fn print_candidate_flags(
    out: &mut Printer,
    used_by_curr_pic_flag: u8,
    use_delta_flag: Option<u8>,
) -> Result<(), AllocError>
    requires { Valid candidate_flags (used_by_curr_pic_flag, use_delta_flag) }
    ensures { OnOk result (out.new ≡ printed candidate_flags (used_by_curr_pic_flag, use_delta_flag) out.old) }
{
    out.flag("used_by_curr_pic_flag", used_by_curr_pic_flag)?;
    out.flag_if(used_by_curr_pic_flag != 1, "use_delta_flag", use_delta_flag)
}

#[tactic(auto, using(mv_syntax::proofs::LoopLaws::column_steps), unfolding(mv_syntax::specs::Loops::each))]
fn all_candidate_flags_of(
    alloc: Global,
    bits: &mut BitReader,
    count: usize,
) -> Result<(Vec<u8>, Vec<Option<u8>>), Fault<Limit>>
    ensures { ReadsSharedAs (λ v. (v.0.items, v.1.items)) (columns 0 count (each candidate_flags)) bits.old bits.new result }
{
    let mut used_by_curr_pic_flag = Vec::new(alloc);
    let mut use_delta_flag = Vec::new(alloc);
    for j in 0..count {
        let flags = candidate_flags_of(bits)?;
        used_by_curr_pic_flag.push(flags.0)?;
        use_delta_flag.push(flags.1)?;
    }
    Ok((used_by_curr_pic_flag, use_delta_flag))
}

#[tactic(auto, using(mv_syntax::proofs::PrintingLoops::print_column_steps), unfolding(mv_syntax::specs::Loops::each))]
fn print_all_candidate_flags(
    out: &mut Printer,
    used_by_curr_pic_flag: &[u8],
    use_delta_flag: &[Option<u8>],
) -> Result<(), AllocError>
    requires { Valid (columns 0 (length used_by_curr_pic_flag.now) (each candidate_flags)) (used_by_curr_pic_flag.now, use_delta_flag.now) }
    ensures { OnOk result (out.new ≡ printed (columns 0 (length used_by_curr_pic_flag.now) (each candidate_flags)) (used_by_curr_pic_flag.now, use_delta_flag.now) out.old) }
{
    for j in 0..used_by_curr_pic_flag.len() {
        let outer = out.open(j as u64)?;
        print_candidate_flags(out, used_by_curr_pic_flag[j], use_delta_flag[j])?;
        out.close(outer);
    }
    Ok(())
}

#[tactic(auto, unfolding(crate::specs::ShortSet::picture))]
fn picture_of(bits: &mut BitReader, side: Side) -> Result<(u32, u8), Fault<Limit>>
    ensures { ReadsSharedAs (λ v. (v.0, v.1)) (picture side) bits.old bits.new result }
{
    let delta_poc_minus1 = ue_limited(bits, 32767)?;
    let used_by_curr_pic_flag = u8_of(bits, 1)?;
    Ok((delta_poc_minus1, used_by_curr_pic_flag))
}

/// The names of the fields of a picture on a side.
fn names(side: Side) -> (&'static str, &'static str)
    ensures delta { result.0.now ≡ codes (delta_poc_minus1 side) }
    ensures used { result.1.now ≡ codes (used_by_curr_pic_flag_of side) }
{
    match side {
        Side::Before => ("delta_poc_s0_minus1", "used_by_curr_pic_s0_flag"),
        Side::After => ("delta_poc_s1_minus1", "used_by_curr_pic_s1_flag"),
    }
}

#[tactic(auto, unfolding(crate::specs::ShortSet::picture))]
fn print_picture(
    out: &mut Printer,
    side: Side,
    delta_poc_minus1: u32,
    used_by_curr_pic_flag: u8,
) -> Result<(), AllocError>
    requires { Valid (picture side) (delta_poc_minus1, used_by_curr_pic_flag) }
    ensures { OnOk result (out.new ≡ printed (picture side) (delta_poc_minus1, used_by_curr_pic_flag) out.old) }
{
    let (delta_name, used_name) = names(side);
    out.ue(delta_name, delta_poc_minus1)?;
    out.flag(used_name, used_by_curr_pic_flag)
}

#[tactic(auto, using(mv_syntax::proofs::LoopLaws::column_steps), unfolding(mv_syntax::specs::Loops::each))]
fn pictures_of(
    alloc: Global,
    bits: &mut BitReader,
    side: Side,
    count: u32,
) -> Result<(Vec<u32>, Vec<u8>), Fault<Limit>>
    ensures { ReadsSharedAs (λ v. (v.0.items, v.1.items)) (columns 0 count (each (picture side))) bits.old bits.new result }
{
    let mut delta_poc_minus1 = Vec::new(alloc);
    let mut used_by_curr_pic_flag = Vec::new(alloc);
    for j in 0..count {
        let fields = picture_of(bits, side)?;
        delta_poc_minus1.push(fields.0)?;
        used_by_curr_pic_flag.push(fields.1)?;
    }
    Ok((delta_poc_minus1, used_by_curr_pic_flag))
}

#[tactic(auto, using(mv_syntax::proofs::PrintingLoops::print_column_steps), unfolding(mv_syntax::specs::Loops::each))]
fn print_pictures(
    out: &mut Printer,
    side: Side,
    delta_poc_minus1: &[u32],
    used_by_curr_pic_flag: &[u8],
    count: u32,
) -> Result<(), AllocError>
    requires { Valid (columns 0 count (each (picture side))) (delta_poc_minus1.now, used_by_curr_pic_flag.now) }
    ensures { OnOk result (out.new ≡ printed (columns 0 count (each (picture side))) (delta_poc_minus1.now, used_by_curr_pic_flag.now) out.old) }
{
    for j in 0..count {
        let outer = out.open(u64::from(j))?;
        print_picture(
            out,
            side,
            delta_poc_minus1[j as usize],
            used_by_curr_pic_flag[j as usize],
        )?;
        out.close(outer);
    }
    Ok(())
}

/// num_positive_pics, where it is present: with the negative pictures at most 16.
fn num_positive_pics_of(
    bits: &mut BitReader,
    present: bool,
    negatives: u32,
) -> Result<Option<u32>, Fault<Limit>>
    ensures { ReadsShared (when present (ue unless (λ n. over 16 (negatives + n)))) bits.old bits.new result }
{
    if !present {
        return Ok(None);
    }
    let value = bits.ue()?;
    if u64::from(negatives) + u64::from(value) > 16 {
        return Err(Fault::Breaks(Limit));
    }
    Ok(Some(value))
}

/// Prints num_positive_pics, where it is present.
fn print_num_positive_pics(
    out: &mut Printer,
    present: bool,
    negatives: u32,
    field: Option<u32>,
) -> Result<(), AllocError>
    requires { Valid (when present (ue unless (λ n. over 16 (negatives + n)))) field }
    ensures { OnOk result (out.new ≡ printed (named "num_positive_pics" (when present (ue unless (λ n. over 16 (negatives + n))))) field out.old) }
{
    match field {
        Some(field) => out.ue("num_positive_pics", field),
        None => Ok(()),
    }
}

/// inter_ref_pic_set_prediction_flag of set `idx`, which set 0 hasn't.
fn prediction_flag_of(bits: &mut BitReader, idx: u8) -> Result<Option<u8>, Fault<Limit>>
    ensures fills { ReadsShared (when (nat_lt 0 idx) (u 1)) bits.old bits.new result }
    ensures later { IfOk result (λ flag. coded_set flag ≡ true → 0 < idx) }
{
    Ok(u8_if(bits, idx > 0, 1)?)
}

/// delta_idx_minus1 of set `idx`, where it is present.
fn delta_idx_minus1_of(
    bits: &mut BitReader,
    present: bool,
    idx: u8,
) -> Result<Option<u32>, Fault<Limit>>
    ensures fills { ReadsShared (when present (ue unless over (idx - 1))) bits.old bits.new result }
    ensures within { IfOk result (λ field. or_zero field ≤ idx - 1) }
{
    ue_limited_if(bits, present, u32::from(idx.saturating_sub(1)))
}

/// How many candidates a set has.
fn count_candidates(
    alloc: Global,
    args: &ShortArgs<'_>,
    is_predicted: bool,
    delta_idx_minus1: Option<u32>,
) -> Result<usize, AllocError>
    requires args { AreShortArgs args.now.idx args.now.num args.now.earlier.now }
    requires index { is_predicted ≡ true → or_zero delta_idx_minus1 < args.now.idx }
    ensures { IfOk result (λ n. n ≡ num_candidates is_predicted (reference args.now.idx (deltas_of_each args.now.earlier.now) delta_idx_minus1)) }
{
    if !is_predicted {
        return Ok(0);
    }
    let reference = reference_deltas(alloc, args, delta_idx_minus1)?;
    Ok(reference.len() + 1)
}

#[tactic(auto, unfolding(crate::specs::ShortSet::set_fields))]
fn set_fields_of(
    alloc: Global,
    bits: &mut BitReader,
    args: &ShortArgs<'_>,
) -> Result<ShortSet, Fault<Limit>>
    requires { AreShortArgs args.now.idx args.now.num args.now.earlier.now }
    ensures { ReadsShared (set_fields args.now.idx args.now.num (deltas_of_each args.now.earlier.now)) bits.old bits.new result }
{
    let inter_ref_pic_set_prediction_flag = prediction_flag_of(bits, args.idx)?;
    let is_predicted = coded_set(inter_ref_pic_set_prediction_flag);
    let delta_idx_minus1 = delta_idx_minus1_of(
        bits,
        is_predicted && args.idx == args.num,
        args.idx,
    )?;
    let delta_rps_sign = u8_if(bits, is_predicted, 1)?;
    let abs_delta_rps_minus1 = ue_limited_if(bits, is_predicted, 32767)?;
    let candidates = count_candidates(alloc, args, is_predicted, delta_idx_minus1)?;
    let flags = all_candidate_flags_of(alloc, bits, candidates)?;
    let num_negative_pics = ue_limited_if(bits, !is_predicted, 16)?;
    let num_positive_pics = num_positive_pics_of(bits, !is_predicted, or_zero(num_negative_pics))?;
    let negatives = pictures_of(alloc, bits, Side::Before, or_zero(num_negative_pics))?;
    let positives = pictures_of(alloc, bits, Side::After, or_zero(num_positive_pics))?;
    Ok(ShortSet {
        inter_ref_pic_set_prediction_flag,
        delta_idx_minus1,
        delta_rps_sign,
        abs_delta_rps_minus1,
        used_by_curr_pic_flag: flags.0,
        use_delta_flag: flags.1,
        num_negative_pics,
        num_positive_pics,
        delta_poc_s0_minus1: negatives.0,
        used_by_curr_pic_s0_flag: negatives.1,
        delta_poc_s1_minus1: positives.0,
        used_by_curr_pic_s1_flag: positives.1,
    })
}

#[tactic(auto, unfolding(crate::specs::ShortSet::st_ref_pic_set))]
fn short_set_of(
    alloc: Global,
    bits: &mut BitReader,
    args: &ShortArgs<'_>,
) -> Result<ShortSet, Fault<Limit>>
    requires { AreShortArgs args.now.idx args.now.num args.now.earlier.now }
    ensures { ReadsShared (st_ref_pic_set args.now.idx args.now.num (deltas_of_each args.now.earlier.now)) bits.old bits.new result }
{
    let set = set_fields_of(alloc, bits, args)?;
    let deltas = deltas_of(alloc, &set, args)?;
    if deltas.len() > 16 {
        return Err(Fault::Breaks(Limit));
    }
    Ok(set)
}

/// Prints the flags of the candidates of a set whose fields are valid.
fn print_flags_of(out: &mut Printer, set: &ShortSet, args: &ShortArgs<'_>) -> Result<(), AllocError>
    requires { Valid (set_fields args.now.idx args.now.num (deltas_of_each args.now.earlier.now)) set.now }
    ensures { OnOk result (out.new ≡ printed (columns 0 (num_candidates (coded_set set.now.inter_ref_pic_set_prediction_flag) (reference args.now.idx (deltas_of_each args.now.earlier.now) set.now.delta_idx_minus1)) (each candidate_flags)) (set.now.used_by_curr_pic_flag, set.now.use_delta_flag) out.old) }
{
    print_all_candidate_flags(out, &set.used_by_curr_pic_flag, &set.use_delta_flag)
}

#[tactic(auto, unfolding(crate::specs::ShortSet::set_fields))]
fn print_set_fields(
    out: &mut Printer,
    set: &ShortSet,
    args: &ShortArgs<'_>,
) -> Result<(), AllocError>
    requires { Valid (set_fields args.now.idx args.now.num (deltas_of_each args.now.earlier.now)) set.now }
    ensures { OnOk result (out.new ≡ printed (set_fields args.now.idx args.now.num (deltas_of_each args.now.earlier.now)) set.now out.old) }
{
    let is_predicted = coded_set(set.inter_ref_pic_set_prediction_flag);
    let last = u32::from(args.idx.saturating_sub(1));
    let negatives = or_zero(set.num_negative_pics);
    let positives = or_zero(set.num_positive_pics);
    out.flag_if(
        args.idx > 0,
        "inter_ref_pic_set_prediction_flag",
        set.inter_ref_pic_set_prediction_flag,
    )?;
    out.ue_limited_if(
        is_predicted && args.idx == args.num,
        "delta_idx_minus1",
        last,
        set.delta_idx_minus1,
    )?;
    out.flag_if(is_predicted, "delta_rps_sign", set.delta_rps_sign)?;
    out.ue_limited_if(
        is_predicted,
        "abs_delta_rps_minus1",
        32767,
        set.abs_delta_rps_minus1,
    )?;
    print_flags_of(out, set, args)?;
    out.ue_limited_if(
        !is_predicted,
        "num_negative_pics",
        16,
        set.num_negative_pics,
    )?;
    print_num_positive_pics(out, !is_predicted, negatives, set.num_positive_pics)?;
    print_pictures(
        out,
        Side::Before,
        &set.delta_poc_s0_minus1,
        &set.used_by_curr_pic_s0_flag,
        negatives,
    )?;
    print_pictures(
        out,
        Side::After,
        &set.delta_poc_s1_minus1,
        &set.used_by_curr_pic_s1_flag,
        positives,
    )
}

impl ShortSet {
    /// Reads st_ref_pic_set(idx, num) (7.3.7).
    ///
    /// `NoBits` where the bits end before or in a field or hold no code there, and no earlier field is past its limit;
    /// `Limit` where all before a field could be read and it is past its limit: delta_idx_minus1 over `idx` - 1, a
    /// difference over 32768, over 16 pictures, and behind the last field over 16 deltas; `Memory` where memory runs out.
    /// After a fault the reader stands where it stood.
    pub fn read(
        alloc: Global,
        bits: &mut BitReader,
        args: &ShortArgs<'_>,
    ) -> Result<ShortSet, Fault<Limit>>
        requires { AreShortArgs args.now.idx args.now.num args.now.earlier.now }
        ensures { AnswersShared (st_ref_pic_set args.now.idx args.now.num (deltas_of_each args.now.earlier.now)) bits.old bits.new result }
    {
        let mut ahead = bits.fork();
        match short_set_of(alloc, &mut ahead, args) {
            Ok(value) => {
                *bits = ahead;
                Ok(value)
            }
            Err(fault) => Err(fault),
        }
    }

    /// Prints st_ref_pic_set(idx, num) (7.3.7) for a header that holds it.
    ///
    /// `AllocError` where memory runs out.
    #[tactic(auto, unfolding(crate::specs::ShortSet::st_ref_pic_set))]
    pub fn print(&self, out: &mut Printer, args: &ShortArgs<'_>) -> Result<(), AllocError>
        requires { Valid (st_ref_pic_set args.now.idx args.now.num (deltas_of_each args.now.earlier.now)) self.now }
        ensures { OnOk result (out.new ≡ printed (st_ref_pic_set args.now.idx args.now.num (deltas_of_each args.now.earlier.now)) self.now out.old) }
    {
        print_set_fields(out, self, args)
    }

    /// Writes st_ref_pic_set(idx, num) (7.3.7).
    ///
    /// `AllocError` where memory runs out: the writer is then unchanged.
    pub fn write(&self, out: &mut BitWriter, args: &ShortArgs<'_>) -> Result<(), AllocError>
        requires args { AreShortArgs args.now.idx args.now.num args.now.earlier.now }
        requires valid { Valid (st_ref_pic_set args.now.idx args.now.num (deltas_of_each args.now.earlier.now)) self.now }
        ensures ok { OnOk result (out.new ≡ out.old ++ bits_of (st_ref_pic_set args.now.idx args.now.num (deltas_of_each args.now.earlier.now)) self.now) }
        ensures err { OnErr result (out.new ≡ out.old) }
    {
        let mut own = Printer::beside(out);
        self.print(&mut own, args)?;
        own.append_to(out)
    }
}

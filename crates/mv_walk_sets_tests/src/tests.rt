//! Units in turn: each call on what stands in a stream.

ghost use Rattle.std.specs.Prelude.{IfSome};
ghost use Rattle.mv_walk_sets.specs.InForce.{IsRead};

use crate::units::*;
use mv_rules::{ReadFault, Rule};
use mv_units::UnitHead;
use mv_walk_sets::{
    NewVps, Role, VpsFault, VpsInForce, directs, is_end, keeps, pps_of, role_of, sps_of, view,
    vps_of,
};
use std::alloc::Global;
use std::test::Fail;

fn head(kind: u8, layer: u8, tid: u8) -> UnitHead {
    UnitHead { kind, layer, tid }
}

// What a video parameter set is to the one in force.
#[derive(Clone, Copy, Debug, PartialEq, Eq)]
enum Turn {
    Repeated,
    First,
    Changed,
}

// The tests let go of a video parameter set here alone, since the check takes long at each place that does.
fn let_go(_vps: VpsInForce) {}

fn answer_of(
    alloc: Global,
    before: Option<&VpsInForce>,
    tid: u8,
    unit: &[u8],
    asked: u32,
) -> Result<Turn, VpsFault> {
    match vps_of(alloc, before, head(32, 0, tid), unit, asked) {
        Ok(NewVps::Repeated) => Ok(Turn::Repeated),
        Ok(NewVps::First(vps)) => {
            let_go(vps);
            Ok(Turn::First)
        }
        Ok(NewVps::Changed(vps)) => {
            let_go(vps);
            Ok(Turn::Changed)
        }
        Err(fault) => Err(fault),
    }
}

// The video parameter set of this unit, where it is the first.
fn first(alloc: Global, unit: &[u8]) -> Option<VpsInForce>
    ensures { IfSome result (λ v. IsRead v) }
{
    match vps_of(alloc, None, head(32, 0, 0), unit, 0) {
        Ok(NewVps::First(vps)) => Some(vps),
        Ok(NewVps::Changed(vps)) => {
            let_go(vps);
            None
        }
        Ok(NewVps::Repeated) => None,
        Err(_) => None,
    }
}

// What is said against a sequence parameter set.
fn sps_fault(alloc: Global, vps: &VpsInForce, layer: u8, tid: u8, unit: &[u8]) -> Option<ReadFault>
    requires { IsRead vps.now }
{
    match sps_of(alloc, vps, head(33, layer, tid), unit) {
        Ok(_) => None,
        Err(fault) => Some(fault),
    }
}

fn pps_fault(alloc: Global, unit: &[u8]) -> Option<ReadFault> {
    match pps_of(alloc, unit) {
        Ok(_) => None,
        Err(fault) => Some(fault),
    }
}

#[test]
fn roles_without_a_video_parameter_set(rt: HostRuntime) -> Result<(), Fail> {
    // The type, the layer, and what the unit is: slices, the reserved types beside them, parameter sets, and the others.
    let rows = [
        (9, 0, Err(Rule::NoVps)),
        (10, 0, Ok(Role::Passed)),
        (15, 0, Ok(Role::Passed)),
        (16, 0, Err(Rule::NoVps)),
        (21, 0, Err(Rule::NoVps)),
        (22, 0, Ok(Role::Passed)),
        (31, 0, Ok(Role::Passed)),
        (32, 0, Ok(Role::Vps)),
        (32, 1, Err(Rule::NoVps)),
        (33, 0, Err(Rule::NoVps)),
        (34, 0, Err(Rule::NoVps)),
        (35, 0, Ok(Role::Passed)),
        (35, 1, Err(Rule::NoVps)),
        (63, 0, Ok(Role::Passed)),
    ];
    for (kind, layer, role) in rows {
        assert_eq!(rt; role_of(None, head(kind, layer, 0)), role);
    }
    assert!(rt; keeps(None, 0, 63));
    Ok(())
}

#[test]
fn ends_of_sequences(rt: HostRuntime) -> Result<(), Fail> {
    let rows = [
        (35, 0, false),
        (36, 0, true),
        (36, 63, true),
        (37, 0, true),
        (37, 1, false),
        (38, 0, false),
    ];
    for (kind, layer, end) in rows {
        assert_eq!(rt; is_end(head(kind, layer, 0)), end);
    }
    Ok(())
}

#[test]
fn roles_and_layers_of_two_views(rt: HostRuntime) -> Result<(), Fail> {
    let Some(vps) = first(rt.alloc(), TWO_VIEW) else {
        return Err(Fail::new("it is not the first"));
    };
    let rows = [
        (9, 1, Role::Slice),
        (10, 1, Role::Passed),
        (21, 1, Role::Slice),
        (21, 2, Role::Stray),
        (22, 1, Role::Passed),
        (32, 0, Role::Vps),
        (32, 1, Role::Passed),
        (32, 2, Role::Stray),
        (33, 1, Role::Sps),
        (33, 2, Role::Stray),
        (34, 1, Role::Pps),
        (34, 63, Role::Stray),
        (36, 1, Role::Passed),
        (36, 2, Role::Stray),
    ];
    for (kind, layer, role) in rows {
        assert_eq!(rt; role_of(Some(&vps), head(kind, layer, 0)), Ok(role));
    }
    // An output layer set, and whether it has layers 0, 1 and 2; set 2 isn't there.
    let sets = [
        (0, true, false, false),
        (1, true, true, false),
        (2, true, false, false),
    ];
    for (set, zero, one, two) in sets {
        assert_eq!(rt; keeps(Some(&vps), set, 0), zero);
        assert_eq!(rt; keeps(Some(&vps), set, 1), one);
        assert_eq!(rt; keeps(Some(&vps), set, 2), two);
    }
    assert_eq!(rt; view(&vps.value, 0), 0);
    assert_eq!(rt; view(&vps.value, 1), 1);
    assert_eq!(rt; view(&vps.value, 2), 0);
    assert_eq!(rt; directs(&vps.value, 0).len(), 0);
    assert_eq!(rt; directs(&vps.value, 1), [0].as_slice());
    assert_eq!(rt; directs(&vps.value, 2).len(), 0);
    let_go(vps);
    Ok(())
}

#[test]
fn first_video_parameter_sets(rt: HostRuntime) -> Result<(), Fail> {
    // TemporalId, the unit, the output layer set that is asked for, and what is answered.
    let rows = [
        (0, VPS, 0, Ok(Turn::First)),
        (1, VPS, 0, Err(VpsFault::Refused(Rule::VpsTid))),
        (0, VPS, 1, Err(VpsFault::NoSuchSet { asked: 1, count: 1 })),
        (1, VPS, 1, Err(VpsFault::Refused(Rule::VpsTid))),
        (1, SHORT_VPS, 1, Err(VpsFault::Refused(Rule::VpsSyntax))),
        (0, TWO_VIEW, 1, Ok(Turn::First)),
        (
            0,
            TWO_VIEW,
            2,
            Err(VpsFault::NoSuchSet { asked: 2, count: 2 }),
        ),
    ];
    for (tid, unit, asked, answer) in rows {
        assert_eq!(rt; answer_of(rt.alloc(), None, tid, unit, asked), answer);
    }
    Ok(())
}

#[test]
fn video_parameter_sets_behind_one(rt: HostRuntime) -> Result<(), Fail> {
    let Some(vps) = first(rt.alloc(), VPS) else {
        return Err(Fail::new("it is not the first"));
    };
    // A repeated one is asked for its TemporalId alone, and one that differs in its id or its level is a changed one.
    let rows = [
        (0, VPS, 0, Ok(Turn::Repeated)),
        (0, VPS, 1, Ok(Turn::Repeated)),
        (1, VPS, 0, Err(VpsFault::Refused(Rule::VpsTid))),
        (0, VPS_1, 0, Ok(Turn::Changed)),
        (0, VPS_OF_LEVEL_3, 0, Ok(Turn::Changed)),
        (
            0,
            VPS_OF_LEVEL_3,
            1,
            Err(VpsFault::NoSuchSet { asked: 1, count: 1 }),
        ),
        (1, VPS_OF_LEVEL_3, 1, Err(VpsFault::Refused(Rule::VpsTid))),
        (1, SHORT_VPS, 1, Err(VpsFault::Refused(Rule::VpsSyntax))),
    ];
    for (tid, unit, asked, answer) in rows {
        assert_eq!(rt; answer_of(rt.alloc(), Some(&vps), tid, unit, asked), answer);
    }
    let_go(vps);
    Ok(())
}

#[test]
fn sequence_parameter_sets(rt: HostRuntime) -> Result<(), Fail> {
    let Some(vps) = first(rt.alloc(), VPS) else {
        return Err(Fail::new("it is not the first"));
    };
    // TemporalId, the unit, and the rule that it breaks. That there are more sub-layers than the video parameter set has is no
    // rule of this profile.
    let rows = [
        (0, SPS, None),
        (1, SPS, Some(Rule::SpsTid)),
        (0, SPS_OF_TWO, None),
        (0, SPS_OF_VPS_1, Some(Rule::NoVps)),
        (1, SPS_OF_VPS_1, Some(Rule::NoVps)),
        (0, SPS_PAST_LIMIT, Some(Rule::SpsLimit)),
        (1, SPS_PAST_LIMIT, Some(Rule::SpsTid)),
        (0, EMPTY_SPS, Some(Rule::SpsSyntax)),
        (1, EMPTY_SPS, Some(Rule::SpsSyntax)),
    ];
    for (tid, unit, rule) in rows {
        let fault = rule.map(|r| ReadFault::Refused(r));
        assert_eq!(rt; sps_fault(rt.alloc(), &vps, 0, tid, unit), fault);
    }
    let_go(vps);
    Ok(())
}

#[test]
fn sequence_parameter_sets_by_what_they_name(rt: HostRuntime) -> Result<(), Fail> {
    let alloc = rt.alloc();
    let Some(vps) = first(alloc, VPS_1) else {
        return Err(Fail::new("it is not the first"));
    };
    let other = Some(ReadFault::Refused(Rule::NoVps));
    assert_eq!(rt; sps_fault(alloc, &vps, 0, 0, SPS), other);
    assert_eq!(rt; sps_fault(alloc, &vps, 0, 0, SPS_OF_VPS_1), None);
    let_go(vps);
    Ok(())
}

#[test]
fn sequence_parameter_sets_of_layer_1(rt: HostRuntime) -> Result<(), Fail> {
    let alloc = rt.alloc();
    let Some(vps) = first(alloc, TWO_VIEW) else {
        return Err(Fail::new("it is not the first"));
    };
    let tid = Some(ReadFault::Refused(Rule::SpsTid));
    assert_eq!(rt; sps_fault(alloc, &vps, 1, 0, SPS_OF_LAYER_1), None);
    assert_eq!(rt; sps_fault(alloc, &vps, 1, 1, SPS_OF_LAYER_1), tid);
    let_go(vps);
    Ok(())
}

#[test]
fn picture_parameter_sets(rt: HostRuntime) -> Result<(), Fail> {
    let alloc = rt.alloc();
    assert_eq!(rt; pps_fault(alloc, PPS), None);
    assert_eq!(rt;
        pps_fault(alloc, PPS_OF_RANGE),
        Some(ReadFault::Refused(Rule::PpsRange))
    );
    assert_eq!(rt;
        pps_fault(alloc, EMPTY_PPS),
        Some(ReadFault::Refused(Rule::PpsSyntax))
    );
    Ok(())
}

//! Tests of the call that can want memory, with enough of it. The texts and what they ask were
//! worked out by hand.

use check_require::{
    Allowance, AllowedCaveat, CaveatName, Member, Require, RequireFault, SessionAsk, VersionAsk,
    WantedEffect, require_of,
};

/// The fault of a text, or none.
fn fault_of(read: Result<Require, RequireFault>) -> Option<RequireFault> {
    match read {
        Ok(_) => None,
        Err(fault) => Some(fault),
    }
}

#[test]
fn an_empty_object_asks_the_defaults(rt: HostRuntime) -> Result<(), RequireFault> {
    let ask = require_of(rt.alloc(), b"{}")?;
    assert_eq!(rt; ask.effect, WantedEffect::Image);
    assert!(rt; ask.records && ask.written && ask.keep && ask.whole_data && ask.covered);
    assert!(rt; !(ask.fallback || ask.again || ask.hash || ask.no_rows || ask.boot || ask.buy));
    assert_eq!(rt; ask.version, VersionAsk::Any);
    assert_eq!(rt; ask.session, SessionAsk::Any);
    assert_eq!(rt; ask.cuts.as_slice(), [Allowance::Whole].as_slice());
    assert_eq!(rt; ask.caveats.len(), 27);
    Ok(())
}

#[test]
fn each_member_is_read(rt: HostRuntime) -> Result<(), RequireFault> {
    let text = b"{\"caveats\": [\"tie\", \"cuts:may-start\"], \"cuts\": [\"tail\", \"raising\"],
        \"effect\": \"table\", \"version\": \"up\", \"session\": \"staged\", \"records\": false,
        \"written\": false, \"keep\": false, \"data\": false, \"covered\": false,
        \"fallback\": true, \"again\": true, \"hash\": true, \"no_rows\": true, \"boot\": true,
        \"buy\": true}";
    let ask = require_of(rt.alloc(), text)?;
    assert_eq!(rt; ask.effect, WantedEffect::Table);
    assert!(rt; !(ask.records || ask.written || ask.keep || ask.whole_data || ask.covered));
    assert!(rt; ask.fallback && ask.again && ask.hash && ask.no_rows && ask.boot && ask.buy);
    assert_eq!(rt; ask.version, VersionAsk::Up);
    assert_eq!(rt; ask.session, SessionAsk::Staged);
    assert_eq!(rt;
        ask.cuts.as_slice(),
        [Allowance::Tail, Allowance::Raising].as_slice()
    );
    let tie = AllowedCaveat {
        name: CaveatName::Tie,
        only_in_cuts: false,
    };
    let may_start = AllowedCaveat {
        name: CaveatName::MayStart,
        only_in_cuts: true,
    };
    assert_eq!(rt; ask.caveats.as_slice(), [tie, may_start].as_slice());
    Ok(())
}

#[test]
fn faults_come_in_order(rt: HostRuntime) -> Result<(), RequireFault> {
    let cases: [(&[u8], RequireFault); 9] = [
        (b"{", RequireFault::NotJson),
        (b"[]", RequireFault::Value(Member::Effect)),
        (b"{\"effect\": 1, \"effects\": 1}", RequireFault::Unknown),
        (
            b"{\"records\": 1, \"effect\": \"any\"}",
            RequireFault::Value(Member::Effect),
        ),
        (
            b"{\"keep\": 1, \"written\": null}",
            RequireFault::Value(Member::Written),
        ),
        (
            b"{\"cuts\": \"whole\", \"data\": true}",
            RequireFault::Value(Member::Cuts),
        ),
        (
            b"{\"cuts\": [\"whole\", \"former\"]}",
            RequireFault::Value(Member::Cuts),
        ),
        (
            b"{\"buy\": 0, \"session\": \"open\"}",
            RequireFault::Value(Member::Session),
        ),
        (
            b"{\"caveats\": [\"cuts:\"]}",
            RequireFault::Value(Member::Caveats),
        ),
    ];
    for (text, fault) in cases {
        assert_eq!(rt; fault_of(require_of(rt.alloc(), text)), Some(fault));
    }
    Ok(())
}

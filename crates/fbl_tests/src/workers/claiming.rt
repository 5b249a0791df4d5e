//! One pass at a time has a member.

ghost use Rattle.std.specs.Prelude.{◌≡◌, true};

use fbl_threads::{Claim, ClaimRefusal, Claims};
use fbl_trace::Member;
use std::test::Fail;

#[test]
fn a_member_is_claimed_by_one_pass_at_a_time(rt: HostRuntime) -> Result<(), Fail> {
    let (one, two) = (Member::at(1), Member::at(2));
    let (claims, pass) = Claims::new(rt.alloc(), 3)?;
    let (a, b) = claims.split(pass);
    let mut a_has_one = match claims.try_claim(a, one) {
        Ok(claim) => claim,
        Err(_) => panic!(rt; "member 1 is free"),
    };
    let b = match claims.try_claim(b, one) {
        Ok(_) => panic!(rt; "member 1 is claimed"),
        Err(pass) => pass,
    };
    let mut b_has_two = match claims.try_claim(b, two) {
        Ok(claim) => claim,
        Err(_) => panic!(rt; "member 2 is free"),
    };
    claims.are_apart(&mut a_has_one, &mut b_has_two);
    assert!(rt; (a_has_one.member(), b_has_two.member()) == (one, two));
    let a = claims.release(a_has_one);
    let a = match claims.try_claim(a, two) {
        Ok(_) => panic!(rt; "member 2 is claimed"),
        Err(pass) => pass,
    };
    let b = claims.release(b_has_two);
    let a_has_two = match claims.try_claim(a, two) {
        Ok(claim) => claim,
        Err(_) => panic!(rt; "member 2 is free again"),
    };
    let a = claims.release(a_has_two);
    let last = claims.join(a, b);
    claims.close(last);
    Ok(())
}

/// The gate refuses each request in turn.
#[test]
fn without_memory(rt: HostRuntime) {
    match Claims::new(rt.alloc(), 3) {
        Ok((claims, pass)) => claims.close(pass),
        Err(refusal) => assert!(rt; refusal == ClaimRefusal::Memory),
    }
}

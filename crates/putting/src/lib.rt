// A put on a store that is ready: document 01, "Calls". The public call is `store::put`.
#![tactic(auto)]

ghost use Rattle.std.specs.Prelude.{◌≡◌, true, []};
ghost use Rattle.definition.specs.Region.{good};
ghost use Rattle.definition.specs.Program.{flat};
ghost use Rattle.definition.specs.Calls.{put_once, put_again};
ghost use Rattle.items.specs.Forms.{Ran};
ghost use Rattle.gate.specs.Forms.{Says};
ghost use Rattle.putting.specs.Forms.{put_ready, tested_store};

use definition::{Answer, Health, Reply, Step};
use items::Failure;

// The tests of a put, and its store.
fn tested_store(
    region: &mut [u8],
    script: &[u8],
    key: &[u8],
    value: &[u8],
    step: Step,
) -> Result<Step, Failure>
    requires { good region.old ≡ true }
    ensures { Ran (tested_store key.now value.now) region.old script.now step
        region.new result }
{
    if let Err(fault) = limits::check_put(key, value) {
        return Err(Failure { fault, step });
    }
    items::store(region, script, key, value, step)
}

fn put_once(
    region: &mut [u8],
    script: &[u8],
    key: &[u8],
    value: &[u8],
    health: Health,
    step: Step,
) -> Reply<Answer>
    requires { good region.old ≡ true }
    ensures { Says (put_once flat key.now value.now health) region.old
        script.now step region.new result.answer result.state result.calls [] }
{
    match tested_store(region, script, key, value, step) {
        Ok(next) => gate::reply(Ok(()), health, next),
        Err(failed) => gate::refused(failed, health),
    }
}

// What follows a store that failed: its second try, where there is one.
fn put_again(
    region: &mut [u8],
    script: &[u8],
    key: &[u8],
    value: &[u8],
    health: Health,
    failed: Failure,
) -> Reply<Answer>
    requires { good region.old ≡ true }
    ensures { Says (put_again flat key.now value.now health failed.fault)
        region.old script.now failed.step region.new result.answer result.state result.calls [] }
{
    if !limits::retries(health, failed.fault) {
        return gate::refused(failed, health);
    }
    match gate::converge(region, script, true, health, failed.step) {
        Ok((clean, next)) => put_once(region, script, key, value, clean, next),
        Err(failed) => gate::refused(failed, health),
    }
}

// A put on a store that is ready. What its tests refuse is no full region, and is not tried again.
pub fn put_ready(
    region: &mut [u8],
    script: &[u8],
    key: &[u8],
    value: &[u8],
    health: Health,
    step: Step,
) -> Reply<Answer>
    requires { good region.old ≡ true }
    ensures { Says (put_ready key.now value.now health) region.old
        script.now step region.new result.answer result.state result.calls [] }
{
    match tested_store(region, script, key, value, step) {
        Ok(next) => gate::reply(Ok(()), health, next),
        Err(failed) => put_again(region, script, key, value, health, failed),
    }
}

// The item calls of document 01: the fault script over the region. Each spends one step of the script, and is equal
// to the run of its one-call program in `definition/specs/Program`.
#![tactic(auto)]

ghost use Rattle.std.specs.Prelude.{◌≡◌, true, length, IfSome};
ghost use Rattle.definition.specs.Region.{item, good, allowed};
ghost use Rattle.definition.specs.Space.{space_of};
ghost use Rattle.definition.specs.Program;
ghost use Rattle.definition.specs.Program.{flat};
ghost use Rattle.definition.specs.Script.{fate, stepped};
ghost use Rattle.items.specs.Forms.{Ran, Fetches, Visits, has_effect, answered_of};

use definition::{Fault, Space, Step, Verdict};
use region::Place;

// Why an item call failed, and where its call then stands.
#[derive(Clone, Copy)]
pub struct Failure {
    pub fault: Fault,
    pub step: Step,
}

// Stores an item. Where the call fails with its effect, the effect is done where it fits.
pub fn store(
    region: &mut [u8],
    script: &[u8],
    key: &[u8],
    value: &[u8],
    step: Step,
) -> Result<Step, Failure>
    requires region_value { good region.old ≡ true }
    requires value_value { allowed (length key.now) (length value.now) ≡ true }
    ensures { Ran (Program.store flat (item key.now value.now)) region.old
        script.now step region.new result }
{
    let next = script::stepped(script, step);
    let verdict = script::fate(script, step);
    let Verdict::Fail(fault, lands) = verdict else {
        let Some(space) = region::store(region, key, value) else {
            return Err(Failure {
                fault: Fault::FullStorage,
                step: next,
            });
        };
        return Ok(Step { space, ..next });
    };
    if lands {
        let Some(space) = region::store(region, key, value) else {
            return Err(Failure { fault, step: next });
        };
        let step = Step { space, ..next };
        return Err(Failure { fault, step });
    }
    Err(Failure { fault, step: next })
}

// Whether a removal of this fate takes effect.
fn takes_effect(verdict: Verdict) -> bool
    ensures { result ≡ has_effect verdict }
{
    match verdict {
        Verdict::Pass => true,
        Verdict::Fail(_, effect) => effect,
    }
}

// What a call of this fate answers that finds room, or needs none.
fn answered(verdict: Verdict, step: Step) -> Result<Step, Failure>
    ensures { result ≡ answered_of verdict step }
{
    match verdict {
        Verdict::Pass => Ok(step),
        Verdict::Fail(fault, _) => Err(Failure { fault, step }),
    }
}

// Removes the item with a key; an absent key is a success. Where it is known what the region holds, as it is after a
// call that wrote, no record behind the one with the key is looked at.
pub fn remove(
    region: &mut [u8],
    script: &[u8],
    key: &[u8],
    held: Option<Space>,
    step: Step,
) -> Result<Step, Failure>
    requires region_value { good region.old ≡ true }
    requires held_value { IfSome held (λ n. n ≡ space_of region.old) }
    ensures { Ran (Program.remove flat key.now) region.old script.now step
        region.new result }
{
    let next = script::stepped(script, step);
    let verdict = script::fate(script, step);
    if takes_effect(verdict) {
        let space = region::remove(region, key, held);
        return answered(verdict, Step { space, ..next });
    }
    answered(verdict, next)
}

// A call that reads: its fate alone decides.
fn read(script: &[u8], step: Step) -> Result<Step, Failure>
    ensures { result ≡ answered_of (fate script.now step) (stepped script.now step) }
{
    answered(script::fate(script, step), script::stepped(script, step))
}

// The value under a key.
pub fn fetch<'a>(
    region: &'a [u8],
    script: &[u8],
    key: &[u8],
    step: Step,
) -> Result<(Option<&'a [u8]>, Step), Failure>
    requires { good region.now ≡ true }
    ensures { Fetches key.now region.now script.now step result }
{
    let next = read(script, step)?;
    Ok((region::fetch(region, key), next))
}

// Opens an iteration, which then goes from place 0.
pub fn iterate_open(region: &[u8], script: &[u8], step: Step) -> Result<Step, Failure>
    requires { good region.now ≡ true }
    ensures { Ran (Program.step flat) region.now script.now step region.now result }
{
    read(script, step)
}

// One step of an iteration that stands at a place: the record there, or that there is none.
pub fn iterate_next(
    region: &[u8],
    script: &[u8],
    at: usize,
    step: Step,
) -> Result<(Option<Place>, Step), Failure>
    ensures { Visits region.now script.now at step result }
{
    let next = read(script, step)?;
    Ok((region::next_item(region, at), next))
}

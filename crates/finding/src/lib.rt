// One key looked up, and handed out or removed, in a store that is ready: document 01, "Calls". The public calls are
// `store::get`, `store::contains` and `store::delete`; none of the three changes the health.
#![tactic(auto)]

ghost use Rattle.std.specs.Prelude.{◌≡◌, true, [], length};
ghost use Rattle.definition.specs.Region.{good};
ghost use Rattle.definition.specs.Program.{flat};
ghost use Rattle.definition.specs.Calls.{get_key, contains_key, delete_key};
ghost use Rattle.gate.specs.Forms.{Tells};
ghost use Rattle.finding.specs.Forms.{Gets};

use definition::{Fault, Step};
use items::Failure;

// Hands out the value under a key, and says its length.
pub fn get_key(
    region: &[u8],
    script: &[u8],
    key: &[u8],
    step: Step,
    out: &mut [u8],
) -> Result<(Option<usize>, Step), Failure>
    requires { good region.now ≡ true }
    ensures { Gets (get_key flat key.now (length out.old)) region.now
        script.now step region.now result out.old out.new }
{
    let (fetched, next) = items::fetch(region, script, key, step)?;
    let Some(value) = fetched else {
        return Ok((None, next));
    };
    if out.len() < value.len() {
        let fault = Fault::OutputTooSmall(value.len());
        return Err(Failure { fault, step: next });
    }
    slices::copy_in(out, 0, value);
    Ok((Some(value.len()), next))
}

// Whether a key has a value.
pub fn contains_key(
    region: &[u8],
    script: &[u8],
    key: &[u8],
    step: Step,
) -> Result<(bool, Step), Failure>
    requires { good region.now ≡ true }
    ensures { Tells (contains_key flat key.now) region.now script.now step
        region.now result [] }
{
    let (fetched, next) = items::fetch(region, script, key, step)?;
    Ok((fetched.is_some(), next))
}

// Removes the value under a key, and says whether there was one.
pub fn delete_key(
    region: &mut [u8],
    script: &[u8],
    key: &[u8],
    step: Step,
) -> Result<(bool, Step), Failure>
    requires { good region.old ≡ true }
    ensures { Tells (delete_key flat key.now) region.old script.now step
        region.new result [] }
{
    let (fetched, next) = items::fetch(region, script, key, step)?;
    if fetched.is_none() {
        return Ok((false, next));
    }
    let gone = items::remove(region, script, key, None, next)?;
    Ok((true, gone))
}

// What every public call begins and ends with: where it stands, the recovery that its health asks for, and its reply.
// Document 01 has it in "Recovery and health" and in "Numbers a caller can hear".
#![tactic(auto)]

ghost use Rattle.std.specs.Prelude.{◌≡◌, true, not, Err};
ghost use Rattle.definition.specs.Calls;
ghost use Rattle.definition.specs.Region.{good};
ghost use Rattle.definition.specs.Public;
ghost use Rattle.gate.specs.Forms.{Gate, state_of, unchanged_of, reply_of, answer_in, step_in};

use definition::{Fault, Health, Reply, State, Step};
use items::Failure;

// Every other call that reads recovers only where a commit may stand.
pub fn is_pending(health: Health) -> bool
    ensures { result ≡ Calls.is_pending health }
{
    match health {
        Health::Clean => false,
        Health::Debris => false,
        Health::Pending => true,
    }
}

// A batch journals over nothing that an earlier one left.
pub fn is_unclean(health: Health) -> bool
    ensures { result ≡ not (Calls.is_clean health) }
{
    match health {
        Health::Debris => true,
        Health::Pending => true,
        Health::Clean => false,
    }
}

// Where a call begins: at the state's place in the script, with no item call made.
pub fn begin(state: State) -> Step
    ensures { result ≡ Public.begin state }
{
    Step {
        at: state.at,
        cut: state.cut,
        calls: 0,
        space: state.space,
    }
}

// Recovers where it is needed: success makes the health Clean, failure keeps it.
pub fn converge(
    region: &mut [u8],
    script: &[u8],
    needed: bool,
    health: Health,
    step: Step,
) -> Result<(Health, Step), Failure>
    requires { good region.old ≡ true }
    ensures { Gate needed health region.old script.now step region.new result }
{
    if !needed {
        return Ok((health, step));
    }
    let next = recovery::recover(region, script, step)?;
    Ok((Health::Clean, next))
}

// The recovery of a call that recovers first only if a commit may stand, and where the call then is.
pub fn ready(region: &mut [u8], script: &[u8], state: State) -> Result<(Health, Step), Failure>
    requires { good region.old ≡ true }
    ensures { Gate (Calls.is_pending state.health) state.health region.old
        script.now (Public.begin state) region.new result }
{
    let health = state.health;
    converge(region, script, is_pending(health), health, begin(state))
}

// The state to keep after a call.
pub fn state_of(health: Health, step: Step) -> State
    ensures { result ≡ state_of health step }
{
    State {
        health,
        at: step.at,
        cut: step.cut,
        space: step.space,
    }
}

// The reply of a call that did nothing: on a bad image, or for its arguments.
pub fn unchanged<A>(answer: A, state: State) -> Reply<A>
    ensures { result ≡ unchanged_of answer state }
{
    reply(answer, state.health, begin(state))
}

// What a call hands back: its answer, the state to keep, and its item calls.
pub fn reply<A>(answer: A, health: Health, step: Step) -> Reply<A>
    ensures { result ≡ reply_of answer health step }
{
    Reply {
        answer,
        state: state_of(health, step),
        calls: step.calls,
    }
}

// The reply to a failure, with the health as given.
pub fn refused<A>(failed: Failure, health: Health) -> Reply<Result<A, Fault>>
    ensures { result ≡ reply_of (Err failed.fault) health failed.step }
{
    reply(Err(failed.fault), health, failed.step)
}

// The reply of a call that keeps the health.
pub fn told<A>(comes_to: Result<(A, Step), Failure>, health: Health) -> Reply<Result<A, Fault>>
    ensures { result ≡ reply_of (answer_in comes_to) health (step_in comes_to) }
{
    match comes_to {
        Ok((answer, step)) => reply(Ok(answer), health, step),
        Err(failed) => refused(failed, health),
    }
}

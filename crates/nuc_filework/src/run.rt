ghost use Rattle.std.specs.Prelude.{◌≡◌, ◌≤◌, [], length, is_some};
ghost use Rattle.std.specs.Option.{option_copied, unwrap_or};
ghost use Rattle.nuc_filework.specs.Calls as spec;
ghost use Rattle.nuc_filework.specs.Runs.{Accepts, Called, Runs, RunsOp};

use crate::Call;
use crate::calls::calls_of;
use crate::steps::Lack;
use nuc_class::Op;
use nuc_folder::{Folder, Outcome, RanOp};
use nuc_hash::Content;
use nuc_observe::Keys;
use std::alloc::Global;

/// Makes the folder's calls of the operation, in their order, until one fails; what the earlier ones did stays.
///
/// `seen` is the content of the version that Local had, `wanted` that of the version that it is to have, each that of no
/// bytes where there is none. The answer is `Changed`, and no call is made, where `keys` lacks a key that a call needs, or
/// `bytes` is absent and a call needs it; the answer is `Changed` too where what was made has a key that isn't new.
pub fn run_op<F: Folder>(
    alloc: Global,
    op: &Op,
    bytes: Option<&[u8]>,
    keys: &Keys,
    folder: &mut F,
    seen: &Content,
    wanted: &Content,
) -> RanOp
    ensures { RunsOp keys.now.now (unwrap_or (option_copied bytes.entry) [])
        (spec.calls_of keys.now.now op.now seen.now wanted.now (is_some bytes.entry))
        (record { told = F.told folder.old; next = F.next folder.old; faults = F.faults folder.old; beside = F.beside folder.old }) result
        (record { told = F.told folder.new; next = F.next folder.new; faults = F.faults folder.new; beside = F.beside folder.new }) }
{
    match calls_of(alloc, op, keys, seen, wanted, bytes.is_some()) {
        Ok(calls) => accepted(keys, run(alloc, &calls, bytes.unwrap_or(&[]), folder)),
        Err(Lack::Missing) => RanOp {
            outcome: Outcome::Changed,
            made: 0,
        },
        Err(Lack::Memory) => RanOp {
            outcome: Outcome::Memory,
            made: 0,
        },
    }
}

/// What was made must have a new key.
fn accepted(keys: &Keys, ran: RanOp) -> RanOp
    ensures outcome { Accepts keys.now.now ran.outcome result.outcome }
    ensures made { result.made ≡ ran.made }
{
    match ran.outcome {
        Outcome::Made(key) if key.0 == 0 || keys.id_of(key).is_some() => RanOp {
            outcome: Outcome::Changed,
            made: ran.made,
        },
        _ => ran,
    }
}

fn run<F: Folder>(alloc: Global, calls: &[Call], bytes: &[u8], folder: &mut F) -> RanOp
    requires { length calls.now ≤ 3 }
    ensures { Runs bytes.now Outcome.Ok calls.now
        (record { told = F.told folder.old; next = F.next folder.old; faults = F.faults folder.old; beside = F.beside folder.old }) result.outcome result.made
        (record { told = F.told folder.new; next = F.next folder.new; faults = F.faults folder.new; beside = F.beside folder.new }) }
{
    let mut last = Outcome::Ok;
    let mut made = 0;
    for call in calls {
        let answer = make(alloc, call, bytes, folder);
        if !answer.is_success() {
            return RanOp {
                outcome: answer,
                made,
            };
        }
        last = answer;
        made += 1;
    }
    RanOp {
        outcome: last,
        made,
    }
}

fn make<F: Folder>(alloc: Global, call: &Call, bytes: &[u8], folder: &mut F) -> Outcome
    ensures { Called bytes.now call.now
        (record { told = F.told folder.old; next = F.next folder.old; faults = F.faults folder.old; beside = F.beside folder.old }) result
        (record { told = F.told folder.new; next = F.next folder.new; faults = F.faults folder.new; beside = F.beside folder.new }) }
{
    match call {
        Call::MakeDir(place) => folder.make_dir(alloc, place),
        Call::WriteNew(place, bit) => folder.write_new(alloc, place, bytes, *bit),
        Call::Replace(key, expected) => folder.replace(alloc, *key, expected, bytes),
        Call::SetBit(key, expected, bit) => folder.set_bit(alloc, *key, *expected, *bit),
        Call::MoveTo(key, expected, place) => folder.move_to(alloc, *key, expected, place),
        Call::Remove(key, expected) => folder.remove(alloc, *key, expected),
    }
}

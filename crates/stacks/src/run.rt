ghost use Rattle.std.specs.Prelude.{◌≡◌, Some};
ghost use Rattle.std.specs.Int.Digits.{AllBelowBase};
ghost use Rattle.stores.specs.Layers.{store};
ghost use Rattle.stacks.specs.declared.call.Answer.TheVariants.{Transfer};
ghost use Rattle.stacks.specs.Calls.{ask, ask_write};
ghost use Rattle.stacks.specs.Steps.{Step, Octets};
ghost use Rattle.stacks.specs.Law.{Law};

use crate::call::{Answer, Call, Entry};
use crate::stack::StackOn;
use stores::fault::Fault;
use stores::store::SectorStore;

// What a read or a write was answered.
fn told(answer: Result<(), Fault>) -> Answer
    ensures { result ≡ Transfer answer }
{
    Answer::Transfer(answer)
}

// Puts one write. A slice's elements are known to be bytes.
fn put_write<P: SectorStore>(stack: &mut P, n: u64, buffer: &[u8]) -> Answer
    ensures step { Step (P.view stack.old) (P.view stack.new) (ask_write n buffer.now) (ask_write n buffer.now) result }
    ensures octets { AllBelowBase 256 buffer.now }
{
    told(stack.write(n, buffer))
}

// Puts one call.
fn put<P: SectorStore>(stack: &mut P, call: &mut Call) -> Answer
    ensures step { Step (P.view stack.old) (P.view stack.new) (ask call.old) (ask call.new) result }
    ensures octets { Octets (ask call.old) }
{
    match call {
        Call::Count => Answer::Number(stack.count()),
        Call::Length => Answer::Number(stack.length() as u64),
        Call::Layer => Answer::Number(u64::from(stack.layer())),
        Call::State(n) => Answer::State(stack.state(*n)),
        Call::Read(n, buffer) => told(stack.read(*n, buffer.as_mut_slice())),
        Call::Write(n, buffer) => put_write(stack, *n, buffer.as_slice()),
    }
}

// What an entry holds of the answer to its call.
fn noted(answer: Answer) -> Option<Answer>
    ensures { result ≡ Some answer }
{
    Some(answer)
}

// Puts the calls of a list to a stack, one after the other, and hands the answers back.
pub fn run<B: SectorStore, N, P: StackOn<B, N>>(stack: &mut P, list: &mut [Entry])
    ensures { Law (P.StackOn.above stack.old) (P.StackOn.above stack.new)
        (store (B.SectorStore.view (P.StackOn.lowest stack.old))) (store (B.SectorStore.view (P.StackOn.lowest stack.new)))
        list.old list.new }
{
    for e in list.iter_mut() {
        e.answer = noted(put(stack, &mut e.call));
    }
}

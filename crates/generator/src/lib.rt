// The generator: a lent list is filled with requests that two labs can repeat, drawn from the same seed by Marsaglia's xorshift.
#![tactic(auto)]

ghost use Rattle.std.specs.Prelude.{◌≡◌, length};
ghost use Rattle.protocol_types.specs.Board.{Fits};
ghost use Rattle.protocol_types.specs.Refusals.{refusal_number};
ghost use Rattle.protocol.specs.Generator.{xorshift, request_drawn};
ghost use Rattle.generator.specs.Lists.{list_refusal, list_generated};

use protocol_types::{Operation, Refusal, Request, Setup, Variable};
use stored_lists::Stores;

// The longest list.
const LIST_LIMIT: usize = protocol_types::REQUEST_LIMIT as usize;

// The draw after x.
#[tactic(auto, unfolding(protocol::specs::Generator::xorshift, protocol::specs::Generator::xor_left, protocol::specs::Generator::xor_right))]
fn next_draw(x: u32) -> u32
    ensures { result ≡ xorshift x }
{
    let a = x ^ (x << 13);
    let b = a ^ (a >> 17);
    b ^ (b << 5)
}

// The request of three draws.
#[tactic(auto, unfolding(protocol::specs::Generator::request_drawn))]
fn draw_request(setup: Setup, first: u32, second: u32, third: u32) -> Request
    requires { Fits setup }
    ensures { result ≡ request_drawn setup first second third }
{
    let processor = first % setup.processors;
    let variable = Variable(second % setup.variable_count());
    let operation = if third % 2 == 0 {
        Operation::Read(variable)
    } else {
        Operation::Write(variable, third)
    };
    Request {
        processor,
        operation,
    }
}

// Whether a list of `count` requests is refused: 1, 10, 2, 11, 5 in this order.
#[tactic(auto, unfolding(crate::specs::Lists::list_refusal, protocol::specs::Generator::generate_refusal, host_decoding::specs::Records::partial_refusal))]
fn check(setup: Setup, seed: u32, whole: bool, count: usize) -> Result<(), Refusal>
    ensures { refusal_number result ≡ list_refusal whole setup seed count }
{
    host_decoding::check_whole(setup, whole)?;
    if seed == 0 {
        return Err(Refusal::SeedZero);
    }
    if count > LIST_LIMIT {
        return Err(Refusal::TooMany);
    }
    Ok(())
}

// The requests of a seed, as many as the list has room for.
pub fn generate<C: Stores<Request>>(setup: Setup, seed: u32, list: &mut [C]) -> Result<(), Refusal>
    ensures refusal { refusal_number result ≡ list_refusal (C.whole list.old) setup seed (length (C.records list.old)) }
    ensures list { list.new ≡ list_generated C.whole C.records C.stored setup seed list.old }
{
    let count = C::count(&*list);
    let whole = C::is_whole(&*list);
    check(setup, seed, whole, count)?;
    let mut x = seed;
    for i in 0..count {
        let first = next_draw(x);
        let second = next_draw(first);
        let third = next_draw(second);
        C::store(list, i, draw_request(setup, first, second, third));
        x = third;
    }
    Ok(())
}

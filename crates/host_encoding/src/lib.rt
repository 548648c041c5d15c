// Requests and a schedule's entries written to lists of numbers, as host_decoding reads them.
#![tactic(auto)]

ghost use Rattle.std.specs.Prelude.{◌≡◌, ◌*◌, ◌/◌, ◌<◌, length};
ghost use Rattle.std.proofs.lemmas.List.Edits.{sets};
ghost use Rattle.host_decoding.specs.Records.{request_width, entry_width};
ghost use Rattle.host_encoding.specs.Numbers.{operation_number, variable_number, value_number, request_numbers, kind_number, processor_number, block_number, entry_numbers};

use protocol_types::{Entry, Operation, Request};

// The number of an operation.
fn operation_number(operation: Operation) -> u32
    ensures { result ≡ operation_number operation }
{
    match operation {
        Operation::Read(_) => 0,
        Operation::Write(_, _) => 1,
        Operation::Clear => 2,
    }
}

// The number of its variable; 0 for a clear, which names none.
fn variable_number(operation: Operation) -> u32
    ensures { result ≡ variable_number operation }
{
    match operation {
        Operation::Read(v) | Operation::Write(v, _) => v.0,
        Operation::Clear => 0,
    }
}

// The value that it writes; 0 for a read or a clear.
fn value_number(operation: Operation) -> u32
    ensures { result ≡ value_number operation }
{
    match operation {
        Operation::Write(_, x) => x,
        Operation::Read(_) | Operation::Clear => 0,
    }
}

// Request i of a list of numbers is set.
pub fn store_request(numbers: &mut [u32], i: usize, request: Request)
    requires { i < length numbers.old / request_width }
    ensures { numbers.new ≡ sets numbers.old (i * request_width) (request_numbers request) }
{
    let k = i * host_decoding::REQUEST_WIDTH;
    let operation = operation_number(request.operation);
    let variable = variable_number(request.operation);
    let value = value_number(request.operation);
    numbers[k] = request.processor;
    numbers[k + 1] = operation;
    numbers[k + 2] = variable;
    numbers[k + 3] = value;
}

// The number of an entry's kind.
fn kind_number(entry: Entry) -> u32
    ensures { result ≡ kind_number entry }
{
    match entry {
        Entry::Fetch(_, _) => 0,
        Entry::WriteBack(_, _) => 1,
        Entry::Drop(_, _) => 2,
        Entry::Complete => 3,
        Entry::CompleteByBroadcast => 4,
    }
}

// The number of its processor; 0 for a completion, which names none.
fn processor_number(entry: Entry) -> u32
    ensures { result ≡ processor_number entry }
{
    match entry {
        Entry::Fetch(i, _) | Entry::WriteBack(i, _) | Entry::Drop(i, _) => i,
        Entry::Complete | Entry::CompleteByBroadcast => 0,
    }
}

// The number of its block; 0 for a completion, which names none.
fn block_number(entry: Entry) -> u32
    ensures { result ≡ block_number entry }
{
    match entry {
        Entry::Fetch(_, b) | Entry::WriteBack(_, b) | Entry::Drop(_, b) => b.0,
        Entry::Complete | Entry::CompleteByBroadcast => 0,
    }
}

// Entry i of a list of numbers is set.
pub fn store_entry(numbers: &mut [u32], i: usize, entry: Entry)
    requires { i < length numbers.old / entry_width }
    ensures { numbers.new ≡ sets numbers.old (i * entry_width) (entry_numbers entry) }
{
    let k = i * host_decoding::ENTRY_WIDTH;
    let kind = kind_number(entry);
    let processor = processor_number(entry);
    let block = block_number(entry);
    numbers[k] = kind;
    numbers[k + 1] = processor;
    numbers[k + 2] = block;
}

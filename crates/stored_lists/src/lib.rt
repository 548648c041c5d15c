// Lists of requests and of a schedule's entries, whatever their cells are: a record each, or numbers, of which several make a record.
#![tactic(auto)]

ghost use Rattle.std.specs.Prelude.{◌≡◌, ◌*◌, ◌<◌, Bool, List, ℕ, Some, length, slice_get, refl};
ghost use Rattle.std.proofs.Math.ListN.{set, length-set};
ghost use Rattle.host_decoding.specs.Records.{request_width, entry_width, whole, requests_of, entries_of};
ghost use Rattle.host_encoding.specs.Numbers.{request_numbers, entry_numbers};
ghost use Rattle.host_encoding.proofs.Stored.{length-stored, request-stored, entry-stored};
ghost use Rattle.stored_lists.specs.Lists.{always, same, request_set, entry_set};

use protocol_types::{Entry, Request};

// A type whose lists store records of type R.
pub trait Stores<R>: Copy {
    ghost records: { List Self → List R };

    // Whether no part of a record is left over.
    ghost whole: { List Self → Bool };

    // The list with a record set.
    ghost stored: { List Self → ℕ → R → List Self };

    fn is_whole(list: &[Self]) -> bool
        ensures { result ≡ whole list.now };

    fn count(list: &[Self]) -> usize
        ensures { result ≡ length (records list.now) };

    fn record_at(list: &[Self], i: usize) -> R
        requires { i < length (records list.now) }
        ensures { slice_get (records list.now) i ≡ Some result };

    fn store(list: &mut [Self], i: usize, item: R)
        requires { i < length (records list.old) }
        ensures { list.new ≡ stored list.old i item };

    ghost keeps_length: { (l : List Self) (i : ℕ) (q : R) → length (stored l i q) ≡ length l };

    // What is stored is read back, and no other record changes.
    ghost reads_back: { (l : List Self) (i : ℕ) (q : R) → i < length (records l) → records (stored l i q) ≡ set (records l) i q };
}

// A cell for each record.
impl<R: Copy> Stores<R> for R {
    ghost records = { same };

    ghost whole = { always };

    ghost stored = { set };

    fn is_whole(_list: &[R]) -> bool {
        true
    }

    fn count(list: &[R]) -> usize {
        list.len()
    }

    fn record_at(list: &[R], i: usize) -> R {
        list[i]
    }

    fn store(list: &mut [R], i: usize, item: R) {
        list[i] = item;
    }

    ghost keeps_length = { length-set };

    ghost reads_back = { λ l i q h. refl };
}

impl Stores<Request> for u32 {
    ghost records = { requests_of };

    ghost whole = { whole request_width };

    ghost stored = { request_set };

    fn is_whole(list: &[u32]) -> bool {
        host_decoding::is_whole(list, host_decoding::REQUEST_WIDTH)
    }

    fn count(list: &[u32]) -> usize {
        host_decoding::request_count(list)
    }

    fn record_at(list: &[u32], i: usize) -> Request {
        host_decoding::request_at(list, i)
    }

    #[tactic(auto, using(host_decoding::proofs::Decoding::requests_counted))]
    fn store(list: &mut [u32], i: usize, item: Request) {
        host_encoding::store_request(list, i, item);
    }

    ghost keeps_length = { λ l i q. length-stored l (i * request_width) (request_numbers q) };

    ghost reads_back = { request-stored };
}

impl Stores<Entry> for u32 {
    ghost records = { entries_of };

    ghost whole = { whole entry_width };

    ghost stored = { entry_set };

    fn is_whole(list: &[u32]) -> bool {
        host_decoding::is_whole(list, host_decoding::ENTRY_WIDTH)
    }

    fn count(list: &[u32]) -> usize {
        host_decoding::entry_count(list)
    }

    fn record_at(list: &[u32], i: usize) -> Entry {
        host_decoding::entry_at(list, i)
    }

    #[tactic(auto, using(host_decoding::proofs::Decoding::entries_counted))]
    fn store(list: &mut [u32], i: usize, item: Entry) {
        host_encoding::store_entry(list, i, item);
    }

    ghost keeps_length = { λ l i q. length-stored l (i * entry_width) (entry_numbers q) };

    ghost reads_back = { entry-stored };
}

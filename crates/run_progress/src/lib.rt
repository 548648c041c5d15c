// A run between two requests, whatever the engine: what is checked of the account, and how it grows.
#![tactic(auto)]

ghost use Rattle.std.specs.Prelude.{◌≡◌, ◌*◌};
ghost use Rattle.protocol_types.specs.Board.{Fits};
ghost use Rattle.protocol.specs.Accounts.{entered, possible};
ghost use Rattle.run_progress.specs.Progress.{Room};

use protocol_types::{Account, Bill, Setup};

// The most cycles that so many requests can cost, one costing at most `each`. The product may need more than 32 bits.
fn most_cycles(each: u32, requests: u32) -> u64
    ensures { result ≡ each * requests }
{
    each as u64 * requests as u64
}

// Whether condition 21 lets an account through.
pub fn is_possible(setup: Setup, account: Account) -> bool
    requires { Fits setup }
    ensures { result ≡ possible setup account }
{
    account.fetch as u64 <= most_cycles(setup.fetch_price(), account.requests)
        && account.write_back as u64 <= most_cycles(setup.most_write_back(), account.requests)
        && account.update <= account.requests
}

// The counting step: one request more, with its bill.
pub fn enter(account: &mut Account, bill: Bill)
    requires { Room account.old 1 bill }
    ensures { account.new ≡ entered account.old 1 bill }
{
    account.requests += 1;
    account.fetch += bill.fetch;
    account.write_back += bill.write_back;
    account.update += bill.update;
}

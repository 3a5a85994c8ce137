ghost use Rattle.std.specs.Prelude.{◌≡◌, ◌<◌, ◌≤◌, [], ◌++◌, length, take, drop, IfOk, IfErr, OnOk, OnErr};
ghost use Rattle.book.specs.Books.{has, put, value_at, Sorted};
ghost use Rattle.book.specs.Merging.{line_taken};
ghost use Rattle.book.specs.Entries.{paged, postings_in};
ghost use Rattle.plain_book.specs.Accounts.{entry_in, entries_of};
ghost use Rattle.plain_book.specs.Kept.{entries_in};
ghost use Rattle.plain_book.specs.Places.{lower, StandsAt, GapAt};
ghost use Rattle.plain_book.specs.Answers.{AccountIs};

use crate::account::Account;
use batches::Line;
use keys::{KeyKind, LawfulKey};
use std::alloc::{AllocError, Global};

/// A book in memory: accounts in the order of their keys. Each call names the kind of the keys, and says what it
/// answers of a book whose keys rise by that kind; `BookOf` is a book of one kind.
#[derive(Drop)]
pub struct PlainBook {
    pub(crate) accounts: Vec<Account>,
}

// An account put at a place, unless it is empty.
fn put_at(accounts: &mut Vec<Account>, at: usize, account: Account) -> Result<(), AllocError>
    requires { at ≤ length accounts.old.items }
    ensures put { OnOk result (entries_of accounts.new.items ≡ take at (entries_of accounts.old.items) ++ put paged account.key.items (entry_in account) (drop at (entries_of accounts.old.items))) }
    ensures out_of_memory { OnErr result (accounts.new.items ≡ accounts.old.items) }
{
    if account.is_empty() {
        return Ok(());
    }
    accounts.insert(at, account)?;
    Ok(())
}

impl PlainBook {
    /// A book without postings.
    pub fn new(heap: Global) -> PlainBook
        ensures is_empty { entries_in result ≡ [] }
    {
        PlainBook {
            accounts: Vec::new(heap),
        }
    }

    // Where a key stands among the accounts, or where it would.
    fn place_of<K: KeyKind>(&self, key: &LawfulKey<K>) -> Result<usize, usize>
        ensures is_a_place { IfOk result (λ at. at < length self.now.accounts.items) }
        ensures is_a_gap { IfErr result (λ at. at ≤ length self.now.accounts.items) }
        ensures stands { Sorted K.kind (entries_in self.now) → IfOk result (StandsAt K.kind key.now.field.now (entries_in self.now)) }
        ensures absent { Sorted K.kind (entries_in self.now) → IfErr result (GapAt K.kind key.now.field.now (entries_in self.now)) }
    {
        let accounts = self.accounts.as_slice();
        let at = accounts.partition_point(|account| account.lies_below(key));
        match accounts.get(at) {
            Some(account) if account.key.as_slice() == key.field => Ok(at),
            _ => Err(at),
        }
    }

    // A line carried out under its key. Where memory runs out, the key's account is lost.
    pub(crate) fn take_line<K: KeyKind>(
        &mut self,
        heap: Global,
        key: &LawfulKey<K>,
        line: Line,
    ) -> Result<(), AllocError>
        ensures taken { Sorted K.kind (entries_in self.old) → OnOk result (entries_in self.new ≡ line_taken K.kind paged (record { key = key.now.field.now; sign = line.sign; number = line.number }) (entries_in self.old)) }
        ensures rising { Sorted K.kind (entries_in self.old) → Sorted K.kind (entries_in self.new) }
    {
        match self.place_of(key) {
            Ok(at) => {
                let account = self.accounts.remove(at).taken(heap, line)?;
                put_at(&mut self.accounts, at, account)
            }
            Err(at) => {
                let account = Account::bare(heap, key.field)?.taken(heap, line)?;
                put_at(&mut self.accounts, at, account)
            }
        }
    }

    // The account of a lawful key, if it has postings.
    pub(crate) fn account_there<K: KeyKind>(&self, key: &LawfulKey<K>) -> Option<&Account>
        ensures { Sorted K.kind (entries_in self.now) → AccountIs (value_at K.kind paged key.now.field.now (entries_in self.now)) result }
    {
        match self.place_of(key) {
            Ok(at) => Some(&self.accounts[at]),
            Err(_) => None,
        }
    }

    // Whether a key has a number.
    pub(crate) fn stands<K: KeyKind>(&self, key: &LawfulKey<K>, n: u64) -> bool
        ensures { Sorted K.kind (entries_in self.now) → result ≡ has n (postings_in (value_at K.kind paged key.now.field.now (entries_in self.now))) }
    {
        self.account_there(key)
            .is_some_and(|account| account.holds(n))
    }

    // All postings of a key, the newest first.
    pub(crate) fn postings<K: KeyKind>(
        &self,
        heap: Global,
        key: &LawfulKey<K>,
    ) -> Result<Vec<u64>, AllocError>
        ensures { Sorted K.kind (entries_in self.now) → IfOk result (λ v. v.items ≡ postings_in (value_at K.kind paged key.now.field.now (entries_in self.now))) }
    {
        match self.account_there(key) {
            Some(account) => account.postings(heap),
            None => Ok(Vec::new(heap)),
        }
    }
}

//! A core over the entries of an earlier journal.
ghost use Rattle.std.specs.Prelude.{◌≡◌, ◌≤◌, true, false, [], IfOk, IfErr};
ghost use Rattle.std.specs.List.{list_all};
ghost use Rattle.plan_schema.specs.Sound.{is_sound_entry};
ghost use Rattle.scenario_rules.specs.Whole.{AreWholeContents, AreWithinLimits};
ghost use Rattle.plan_core.specs.State.{begin_state};
ghost use Rattle.plan_core.specs.Behind.{HasEntered, HasEnteredFirst, HasOneMore, IsNoCore, IsNotEntered};
ghost use Rattle.plan_core.specs.declared.behind.BehindFault.TheVariants as faults;

use crate::began::Began;
use crate::kept::Core;
use plan_journal::Journal;
use plan_schema::{Contents, Entry, Refusal};
use std::alloc::{AllocError, Global};

/// Why there is no core over some entries.
#[derive(Clone, Copy)]
pub enum BehindFault {
    /// An entry is refused: how many stand before the first such, and why.
    Refused(u64, Refusal),
    /// There was no memory.
    Memory,
}

impl From<AllocError> for BehindFault {
    ghost from_gives = { λ _ fault. fault ≡ faults.Memory };

    fn from(_: AllocError) -> BehindFault {
        BehindFault::Memory
    }
}

impl Core {
    /// A core with these records as the root's, behind the entries of an earlier journal, and with an empty memo for so many pairs. Its
    /// own journal has none of them.
    pub fn behind(
        alloc: Global,
        contents: Contents,
        most: u32,
        earlier: &Journal,
    ) -> Result<Core, BehindFault>
        requires whole { AreWholeContents contents }
        requires limits { AreWithinLimits contents }
        requires some { 1 ≤ most }
        requires few { most ≤ 65_536 }
        requires sound { list_all is_sound_entry earlier.now.entries ≡ true }
        ensures ok { IfOk result (HasEntered contents most earlier.now.entries []) }
        ensures err { IfErr result (IsNoCore contents earlier.now.entries) }
    {
        let began = Began::with(&contents, earlier);
        let mut core = Core::begin(alloc, contents, most)?;
        core.enter_all(earlier.as_slice());
        match earlier.get(core.journal.len()) {
            None => {
                core.begin_behind(began);
                Ok(core)
            }
            Some(entry) => Err(core.why_not(entry)),
        }
    }

    /// Enters entries one after another into a core that has none, up to the first that isn't entered.
    fn enter_all(&mut self, entries: &[Entry])
        requires alone { self.old ≡ begin_state self.old.base self.old.most }
        requires sound { list_all is_sound_entry entries.now ≡ true }
        ensures { HasEnteredFirst self.old.base self.old.most entries.now self.new }
    {
        for entry in entries {
            if !self.enter_again(entry) {
                return;
            }
        }
    }

    /// Enters an entry of an earlier journal, and answers whether it is entered.
    fn enter_again(&mut self, entry: &Entry) -> bool
        requires { is_sound_entry entry.now ≡ true }
        ensures yes { result ≡ true → HasOneMore self.old self.new entry.now }
        ensures no { result ≡ false → self.new ≡ self.old }
    {
        match entry.copy() {
            Ok(entry) => self.change(entry).is_ok(),
            Err(_) => false,
        }
    }

    /// Why an entry isn't entered: it is refused, or else there was no memory.
    fn why_not(&self, entry: &Entry) -> BehindFault
        ensures { IsNotEntered self.now entry.now result }
    {
        self.holds();
        match self.refusal(&entry.user, &entry.change) {
            Some(refusal) => BehindFault::Refused(self.point(), refusal),
            None => BehindFault::Memory,
        }
    }

    /// From here on the entries count as those that the core began with.
    fn begin_behind(&mut self, began: Began)
        requires alone { self.old.earlier ≡ [] }
        requires base { began.base ≡ self.old.base }
        requires earlier { began.earlier ≡ self.old.entries }
        ensures { self.new ≡ record self.old { earlier = self.old.entries; entries = [] } }
    {
        self.began = began;
        self.before = self.journal.len();
        self.journal = Journal::new(self.alloc);
    }
}

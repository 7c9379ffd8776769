ghost use Rattle.std.specs.Prelude.{◌≡◌, ◌<◌, ◌^◌, IsFalse, None, Some, IsTrue};
ghost use Rattle.disk_model.specs.Disk.{LeavesOnly, WhereTold};
ghost use Rattle.keepers.specs.Keeper.{HoldsOnly};
ghost use Rattle.roam_core.specs.Agreement.{Agrees};
ghost use Rattle.roam_core.specs.Entering.{CanEnter};
ghost use Rattle.roam_core.specs.Lines.{line_decided};
ghost use Rattle.book.specs.Receipts.{GivesGood};
ghost use Rattle.book.specs.Results.{AnswersSo, DecidesSo, IsFullAnswer, LacksRoom, MadeOrNot};
ghost use Rattle.book.specs.Results.{moment_in, reaction_in};

use crate::answered::Answered;
use crate::book::Book;
use crate::pages::{MOST_ENTRIES, Written};
use keepers::Keeper;
use key_vault::BlockFn;
use roam_core::{Reaction, answers_agree, knows_senders, react};
use std::alloc::Global;
use wire_ids::{Memory, Moment};

impl<K: Keeper, E: BlockFn, D: BlockFn> Book<K, E, D> {
    // Whether a request can be decided at this moment: there is a number for one more entry.
    pub(crate) fn can_enter(&self, moment: Moment, now: Moment) -> bool
        requires { moment.0 ≡ moment_in self.now now.0 }
        ensures yes { IsTrue result
            → CanEnter self.now.page.config self.now.page.desk.now moment.0 }
    {
        self.sound();
        knows_senders(self.tables());
        self.state().entries() < MOST_ENTRIES
    }

    // Decides a body at this moment, and writes its entry.
    fn decide(&mut self, alloc: Global, body: &[u8], moment: Moment) -> Answered
        requires whole { self.old.page.tried ≡ None }
        requires can { CanEnter self.old.page.config self.old.page.desk.now moment.0 }
        ensures answers { DecidesSo (K.is_full self.old.page.keeper) result body.now moment.0
            self.old self.new }
        ensures changes { K.changes self.new.page.keeper ≡ K.changes self.old.page.keeper }
        ensures any_moment { WhereTold self.old.page.records
            (λ rs. LeavesOnly K.moment K.held_since self.old.page.keeper self.new.page.keeper
            (MadeOrNot rs (reaction_in self.old body.now moment.0).entry)) }
    {
        self.sound();
        let point = self.state().entries();
        let decided = react(
            alloc,
            self.pages.tables(),
            &self.vault,
            self.pages.state(),
            body,
            moment,
        );
        let Ok(
            Reaction {
                answer: bytes,
                entry,
            },
        ) = decided
        else {
            return Answered::Memory;
        };
        let Some(entry) = entry else {
            return Answered::Answer {
                bytes,
                point,
                moment,
                entered: false,
            };
        };
        match self.enter(alloc, entry) {
            Written::Done => Answered::Answer {
                bytes,
                point,
                moment,
                entered: true,
            },
            Written::NotKept => Answered::Fault,
            Written::NoRoom => Answered::Full,
            Written::NoMemory => Answered::Memory,
        }
    }

    /// Answers a request, which is one body, where the clock reads `now`, and writes its entry,
    /// where it has one, before it is answered. All room and memory is taken before. The keys of
    /// the answer are exactly those to which its receiver is entitled.
    pub fn answer(&mut self, alloc: Global, body: &[u8], now: Moment) -> Answered
        requires whole { self.old.page.tried ≡ None }
        ensures answers { AnswersSo (K.is_full self.old.page.keeper) result body.now now.0 self.old
            self.new }
        ensures changes { K.changes self.new.page.keeper ≡ K.changes self.old.page.keeper }
        // It makes a good receipt.
        ensures good { GivesGood result body.now self.new }
        ensures agrees { Agrees self.old.page.config self.old.fixed.keys self.old.page.desk
            (moment_in self.old now.0) (line_decided self.old.page.config self.old.fixed.keys
            self.old.page.desk body.now (moment_in self.old now.0)) }
        // Whether it is full follows from the records, the body and the moment.
        ensures full { IsFullAnswer result → WhereTold self.old.page.records
            (λ rs. LacksRoom (K.fills rs) body.now (moment_in self.old now.0) self.old) }
        // At each moment each image has the entries before, with the body's or without it.
        ensures any_moment { WhereTold self.old.page.records
            (λ rs. LeavesOnly K.moment K.held_since self.old.page.keeper self.new.page.keeper
            (MadeOrNot rs (reaction_in self.old body.now (moment_in self.old now.0)).entry)) }
        ensures held { self.new.page.tried ≡ None → WhereTold self.new.page.records
            (HoldsOnly (K.holds self.new.page.keeper)) }
    {
        self.sound();
        answers_agree(self.tables());
        let moment = self.moment(now);
        if !self.can_enter(moment, now) {
            return Answered::Memory;
        }
        let answered = self.decide(alloc, body, moment);
        self.sound();
        answered
    }
}

// The answers of a session that show a solution or ask for the next one, or take it.
ghost use Rattle.std.specs.Prelude.{◌≡◌, ◌<◌, ◌+◌, ◌≤◌, false, true, ℕ, IfOk, IsTrue, IsFalse, MatchOption, is_ok, Ok, if◌then◌else◌};
ghost use Rattle.resolver_model.specs.Histories.{rules_at, cursor_at, puts_since};
ghost use Rattle.resolver_model.specs.Costs as costs;
ghost use Rattle.resolver_model.specs.Rules.{is_against, is_over, IsLeastAgainst, IsLeastOver};
ghost use Rattle.resolver_model.specs.Answers.{delivery, delivery_count, IsAtEnd, situation_at};
ghost use Rattle.resolver_model.specs.Trees.{is_some_wanted};
ghost use Rattle.resolver_model.specs.Legal.{Follows};
ghost use Rattle.search_core.specs.Stores.{IsPicked};
ghost use Rattle.resolver_model.specs.declared.history.Entry.TheVariants.{Say};
ghost use Rattle.search_core.specs.Sessions.{with_entry, with_room, IsFor, HasRoom, IsAnswer, after_answer};

use super::Session;
use crate::jobs::Answer;
use basis::Basis;
use choice_set::{ChoiceSet, NoMemory};
use frontier::Pick;
use resolver_model::{Bound, Command, Cost, Line, Reply};
use std::alloc::Global;

impl Session {
    // The delivery with this number, once more.
    fn delivery(&self, alloc: Global, number: u64) -> Result<ChoiceSet, NoMemory>
        requires { 1 ≤ number }
        ensures { IfOk result (λ set. set ≡ delivery self.now.history number) }
    {
        match self.given.get(number as usize - 1) {
            Some(set) => set.copy(alloc),
            None => Ok(ChoiceSet::empty(alloc)),
        }
    }

    // Where the cursor stands.
    fn cursor(&self) -> u64
        ensures value { result ≡ cursor_at self.now.history }
        ensures low { result ≤ delivery_count self.now.history }
    {
        let _ = &self.given;
        self.ledger.cursor()
    }

    // Shows the solution before the shown one.
    pub(super) fn prev(&mut self, alloc: Global, actor: u32) -> Result<Answer, NoMemory>
        requires actor { actor < self.old.setting.actors }
        requires room { HasRoom self.old actor }
        ensures answer { IfOk result (IsAnswer self.old.setting self.old.history actor Command.Prev) }
        ensures after { self.new ≡ after_answer self.old actor Command.Prev result }
    {
        let cursor = self.cursor();
        if cursor == 0 {
            return Ok(self.tell(actor, Command::Prev, Reply::NotShown, Reply::NotShown));
        }
        if cursor == 1 {
            return Ok(self.tell(actor, Command::Prev, Reply::AtFirst, Reply::AtFirst));
        }
        let number = cursor - 1;
        let choices = self.delivery(alloc, number)?;
        let again = self.delivery(alloc, number)?;
        let fresh = false;
        let reply = Reply::Solution {
            number,
            choices,
            fresh,
        };
        Ok(self.tell(
            actor,
            Command::Prev,
            reply,
            Reply::Solution {
                number,
                choices: again,
                fresh,
            },
        ))
    }

    // Shows the solution after the shown one, where it was delivered before.
    fn next_again(&mut self, alloc: Global, actor: u32) -> Result<Answer, NoMemory>
        requires actor { actor < self.old.setting.actors }
        requires room { HasRoom self.old actor }
        requires before { cursor_at self.old.history < delivery_count self.old.history }
        ensures answer { IfOk result (IsAnswer self.old.setting self.old.history actor Command.Next) }
        ensures after { self.new ≡ after_answer self.old actor Command.Next result }
    {
        let _ = &self.given;
        let number = self.cursor() + 1;
        let choices = self.delivery(alloc, number)?;
        let again = self.delivery(alloc, number)?;
        let fresh = false;
        let reply = Reply::Solution {
            number,
            choices,
            fresh,
        };
        Ok(self.tell(
            actor,
            Command::Next,
            reply,
            Reply::Solution {
                number,
                choices: again,
                fresh,
            },
        ))
    }

    // Answers that no more is left, where every leaf is shut. It takes no memory.
    fn no_more(&mut self, actor: u32) -> Answer
        requires actor { actor < self.old.setting.actors }
        requires room { HasRoom self.old actor }
        requires end { IsAtEnd self.old.history }
        requires shut { IsPicked self.old.setting self.old.history Pick.AllShut }
        ensures answer { IsAnswer self.old.setting self.old.history actor Command.Next result }
        ensures after { self.new ≡ after_answer self.old actor Command.Next (Ok result) }
    {
        let _ = &self.ledger;
        self.tell(actor, Command::Next, Reply::NoMore, Reply::NoMore)
    }

    // Answers that the actor has made its slice of steps, and some leaf is still wanted. It takes no memory.
    fn not_yet(&mut self, actor: u32, steps: u64) -> Answer
        requires actor { actor < self.old.setting.actors }
        requires room { HasRoom self.old actor }
        requires end { IsAtEnd self.old.history }
        requires wanted { IsTrue (is_some_wanted (situation_at self.old.setting self.old.history)) }
        requires slice { steps ≡ self.old.setting.slice }
        requires many { self.old.setting.slice ≤ puts_since actor self.old.history }
        ensures answer { IsAnswer self.old.setting self.old.history actor Command.Next result }
        ensures after { self.new ≡ after_answer self.old actor Command.Next (Ok result) }
    {
        self.tell(
            actor,
            Command::Next,
            Reply::NotYet { steps },
            Reply::NotYet { steps },
        )
    }

    // Delivers the least finished leaf's taken list, where no leaf is wanted.
    fn deliver(
        &mut self,
        alloc: Global,
        basis: &Basis,
        actor: u32,
        leaf: u64,
    ) -> Result<Answer, NoMemory>
        requires basis { IsFor self.old basis.now.problem basis.now.table }
        requires actor { actor < self.old.setting.actors }
        requires room { HasRoom self.old actor }
        requires end { IsAtEnd self.old.history }
        requires picked { IsPicked self.old.setting self.old.history (Pick.Finished leaf) }
        ensures answer { IfOk result (IsAnswer self.old.setting self.old.history actor Command.Next) }
        ensures after { self.new ≡ after_answer self.old actor Command.Next result }
    {
        let set = self.frontier.taken(alloc, leaf)?;
        let cost = basis.table.cost(alloc, &set)?;
        let choices = set.copy(alloc)?;
        let again = set.copy(alloc)?;
        let own = set.copy(alloc)?;
        let number = self.given.len() as u64 + 1;
        self.hand_over(actor, set, own, choices, cost)?;
        let fresh = true;
        Ok(self.said(Reply::Solution {
            number,
            choices: again,
            fresh,
        }))
    }

    // Adds a delivery with its cost, its line and its entry. After want of memory nothing has changed.
    fn hand_over(
        &mut self,
        actor: u32,
        set: ChoiceSet,
        own: ChoiceSet,
        choices: ChoiceSet,
        cost: Cost,
    ) -> Result<(), NoMemory>
        requires own { own ≡ set }
        requires choices { choices ≡ set }
        requires dear { cost ≡ costs.cost self.old.setting.table set }
        requires room { HasRoom self.old actor }
        requires follows { Follows self.old.setting self.old.history (Say actor Command.Next (Reply.Solution (delivery_count self.old.history + 1) set true)) }
        ensures { self.new ≡ (if is_ok result then with_room (with_entry self.old (Say actor Command.Next (Reply.Solution (delivery_count self.old.history + 1) set true))) actor false else self.old) }
    {
        let number = self.given.len() as u64 + 1;
        let before = self.learned.len();
        let Ok(()) = self.given.reserve(1) else {
            return Err(NoMemory);
        };
        self.learned.add(Line {
            set: own,
            bound: Bound::Given,
        })?;
        match self.ledger.deliver(actor, number, choices, cost) {
            Ok(()) => {
                self.given.push_reserved(set);
                Ok(())
            }
            Err(NoMemory) => {
                self.learned.cut(before);
                Err(NoMemory)
            }
        }
    }

    // Whether the cursor stands before the last delivery; else it stands at it.
    fn is_behind(&self) -> bool
        ensures behind { IsTrue result → cursor_at self.now.history < delivery_count self.now.history }
        ensures end { IsFalse result → IsAtEnd self.now.history }
    {
        self.cursor() < self.given.len() as u64
    }

    // Answers where some leaf is wanted: the search has to go on, or the actor has made its slice of steps.
    fn go_on(&mut self, actor: u32) -> Answer
        requires actor { actor < self.old.setting.actors }
        requires room { HasRoom self.old actor }
        requires end { IsAtEnd self.old.history }
        requires wanted { IsTrue (is_some_wanted (situation_at self.old.setting self.old.history)) }
        ensures answer { IsAnswer self.old.setting self.old.history actor Command.Next result }
        ensures after { self.new ≡ after_answer self.old actor Command.Next (Ok result) }
    {
        let slice = self.ledger.slice();
        if self.ledger.puts(actor) < slice {
            return Answer::Search;
        }
        self.not_yet(actor, slice)
    }

    // Shows the next solution: one delivered before, or the first of those that are left; or that none is left, or none is
    // found yet; or asks for a search.
    pub(super) fn next(
        &mut self,
        alloc: Global,
        basis: &Basis,
        actor: u32,
    ) -> Result<Answer, NoMemory>
        requires basis { IsFor self.old basis.now.problem basis.now.table }
        requires actor { actor < self.old.setting.actors }
        requires room { HasRoom self.old actor }
        ensures answer { IfOk result (IsAnswer self.old.setting self.old.history actor Command.Next) }
        ensures after { self.new ≡ after_answer self.old actor Command.Next result }
    {
        if self.is_behind() {
            return self.next_again(alloc, actor);
        }
        match self.look(alloc, basis)? {
            Pick::Wanted(_) => Ok(self.go_on(actor)),
            Pick::Held(_) => Ok(self.go_on(actor)),
            Pick::Finished(leaf) => self.deliver(alloc, basis, actor, leaf),
            Pick::AllShut => Ok(self.no_more(actor)),
        }
    }

    // The least choice against the delivery with this number.
    fn against(&self, number: u64) -> Option<u32>
        requires low { 1 ≤ number }
        requires high { number ≤ delivery_count self.now.history }
        ensures { MatchOption result ((c : ℕ) → IsFalse (is_against (rules_at self.now.setting.first_rules self.now.history) (delivery self.now.history number) c))
            (IsLeastAgainst (rules_at self.now.setting.first_rules self.now.history) (delivery self.now.history number)) }
    {
        self.rules.first_against(&self.given[number as usize - 1])
    }

    // The least level at which the delivery with this number is over its cap.
    fn over_cap(&self, number: u64) -> Option<u32>
        requires low { 1 ≤ number }
        requires high { number ≤ delivery_count self.now.history }
        ensures { MatchOption result ((level : ℕ) → IsFalse (is_over (rules_at self.now.setting.first_rules self.now.history) (costs.cost self.now.setting.table (delivery self.now.history number)) level))
            (IsLeastOver (rules_at self.now.setting.first_rules self.now.history) (costs.cost self.now.setting.table (delivery self.now.history number))) }
    {
        self.rules
            .first_cap_over(self.ledger.cost_of(number).parts())
    }

    // Takes the shown solution, where it keeps the rules. It takes no memory.
    pub(super) fn accept(&mut self, actor: u32) -> Answer
        requires actor { actor < self.old.setting.actors }
        requires room { HasRoom self.old actor }
        ensures answer { IsAnswer self.old.setting self.old.history actor Command.Accept result }
        ensures after { self.new ≡ after_answer self.old actor Command.Accept (Ok result) }
    {
        let number = self.cursor();
        if number == 0 {
            return self.tell(actor, Command::Accept, Reply::NotShown, Reply::NotShown);
        }
        if let Some(choice) = self.against(number) {
            return self.tell(
                actor,
                Command::Accept,
                Reply::RuledOut { choice },
                Reply::RuledOut { choice },
            );
        }
        if let Some(level) = self.over_cap(number) {
            return self.tell(
                actor,
                Command::Accept,
                Reply::OverCap { level },
                Reply::OverCap { level },
            );
        }
        self.tell(actor, Command::Accept, Reply::Accepted, Reply::Accepted)
    }
}

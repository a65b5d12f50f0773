// Laws of the calls of a session. No function computes anything: a contract is a law.
ghost use Rattle.std.specs.Prelude.{◌≡◌, ◌++◌, ◌∷◌, [], List, ℕ, IsFalse};
ghost use Rattle.laws_session.specs.Laws.{is_end_by};
ghost use Rattle.resolver_model.specs.Answers.{Setting};
ghost use Rattle.resolver_model.specs.Histories.{History};
ghost use Rattle.resolver_model.specs.Legal.{Follows, IsLegal};
ghost use Rattle.resolver_model.specs.declared.history.Command.{Command};
ghost use Rattle.resolver_model.specs.declared.history.Entry.{Entry};
ghost use Rattle.search_core.specs.Calls.{Call, AreCalls};
ghost use Rattle.search_core.specs.Jobs.{IsOut};
ghost use Rattle.search_core.specs.Sessions.{Session, fresh, IsTaken, IsAnswer};
ghost use Rattle.search_core.specs.declared.jobs.Answer.{Answer};
ghost use Rattle.search_core.specs.declared.jobs.Job.{Job};
ghost use Rattle.search_core.specs.declared.jobs.Taken.{Taken};

/// A law: whatever calls come, of any number of actors and in whatever order, the history is legal. Each call adds the entry
/// that its equation names, and no other; a refused one changes nothing.
pub fn calls_stay_legal()
    ensures { (s : Setting) (calls : List Call) (session : Session) → AreCalls calls (fresh s) session → IsLegal s session.history }
{}

/// Laws: one answer alone is right, to an actor that asks for a leaf and to a command. So each answer comes exactly where its
/// cause is.
pub fn answers_are_exact()
    ensures take { (s : Setting) (history : History) (actor : ℕ) (one other : Taken) → IsLegal s history → IsTaken s history actor one → IsTaken s history actor other → one ≡ other }
    ensures answer { (s : Setting) (history : History) (actor : ℕ) (command : Command) (one other : Answer) → IsAnswer s history actor command one → IsAnswer s history actor command other → one ≡ other }
{}

/// A law: a job that is out stays out, whatever others do, until its own actor puts it or gives it back.
pub fn jobs_stay_out()
    ensures { (s : Setting) (history : History) (entry : Entry) (job : Job) → IsLegal s history → Follows s history entry → IsOut s history job → IsFalse (is_end_by job.actor entry) → IsOut s (history ++ entry ∷ []) job }
{}

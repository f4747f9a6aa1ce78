//! What holds of every run of a hub. The functions do nothing: their contracts are the laws.
ghost use Rattle.std.specs.Prelude.{◌<◌, ◌≤◌, ◌+◌, ◌≡◌, ◌++◌, [], ℕ, Ok, Option, Some, None, true, false, List, length};
ghost use Rattle.repo_api.specs.{Accepted.Accepted, Accepted.Accepted.{ChangesProperty, Commits, Releases}, LockRuns.HaveOwnTokens, Locking.HandedTokens};
ghost use Rattle.repo_api.specs.{Marks.AreMarked, Opening.new_repository, Soundness.{AreSound, AreTrees}, States.{IsBeginning, RepoState, trees_in, TxnState}};
ghost use Rattle.repo_api.specs.{declared.ask.CommitAsk.CommitAsk, declared.property_ask.PropertyAsk.PropertyAsk};
ghost use Rattle.commands.specs.{Commands.main_command, declared.command.MainCommand.TheVariants.ChangeRevProp};
ghost use Rattle.wire_edits.specs.{Editing.editor_command, declared.editing.EditorCommand.TheVariants.CloseEdit};
ghost use Rattle.edit_rules.specs.Editor.{finished};
ghost use Rattle.items.specs.Values.{ItemValue};
ghost use Rattle.wire_replies.specs.declared.reply.Reply.{Reply};
ghost use Rattle.access.specs.Points.{content_of, last_count, Point};
ghost use Rattle.machine.specs.{Hearing.{Input, Yields}, Hearing.Input.Whole, Machine.MachineEdit, Settings.Settings, Stages.SessionState};
ghost use Rattle.machine.specs.{declared.env.Env.Env, declared.login.OpenLogin.OpenLogin, declared.phase.Client.Client};
ghost use Rattle.machine.specs.declared.phase.Phase.TheVariants.{Editing, LoggingIn, Serving};
ghost use Rattle.hub.specs.{Asked.IsAsked, Done.{GoesOnBy, HasDone, HaveDone}, Laws.{AllKeepSides, IsUnbroken, KeepsConstants, KeepsOtherProperties}};
ghost use Rattle.hub.specs.{Laws.{KeepsProperties, MakesNewTokens, new_hub, RespectLocks, TellsFailure}, Runs.{Event, HubStep, with_rest}};
ghost use Rattle.hub.specs.{State.{HasTrees, hub_at, HubState, session_of}, CallLaws.{CallsMakeNewTokens, CallsHaveDone}};
ghost use Rattle.hub.specs.Always.{Always, AlwaysBy, OfCalls, OfRuns};

/// Shows that the trees and changes of revisions that exist stay the same, whatever happens, and whatever calls come.
pub fn revisions_stay()
    ensures { Always (λ old new. IsBeginning old.content.revisions new.content.revisions) }
{}

/// Shows that an event adds at most one revision.
pub fn one_revision_an_event()
    ensures { (old new : HubState) (env after : Env) (event : Event) (told : List Reply)
        → HubStep old env event told new after → length new.content.revisions ≤ length old.content.revisions + 1 }
{}

/// Shows that an event that is answered by a failure leaves the repository as it was.
pub fn refused_changes_nothing()
    ensures { (old new : HubState) (env after : Env) (event : Event) (told : List Reply)
        → HubStep old env event told new after → TellsFailure told → new.content ≡ old.content }
{}

/// Shows that what an event does to the repository is what its own session has asked for, and is told: a commit is of
/// the transaction that this session has open, by its user, with the tokens that it handed in, and where every tree is
/// a tree, it overwrites nothing that was changed since its base; a change of a property is the one of its command; and
/// a lock has the token of the word that was handed in, which is used up. Where changes come to a halt, the one that
/// was being saved is known: the event's own session asked for it, and the rules accept it.
pub fn changes_are_asked_for()
    ensures event { (old new : HubState) (env after : Env) (event : Event) (told : List Reply)
        → HubStep old env event told new after
        → (changes : List Accepted) × HasDone old env event changes told new after }
    ensures events { OfRuns (λ old env events told new after run. (changes : List Accepted)
        × HaveDone old env events told new after run changes) }
    ensures calls { OfCalls (λ old calls outcomes new run. (changes : List Accepted)
        × CallsHaveDone old calls outcomes new run changes) }
{
    machine::steps_keep_trees();
    repo_laws::commits_keep_both_sides();
}

/// Shows that what is not the session's own is not asked for: a commit of another transaction than that of its edit, at
/// another command than the edit's end, by another user, or with other tokens than were handed in; a release of other
/// locks; and a change of a property by another command than a `change-rev-prop` or `change-rev-prop2` that names it
/// so, with the value before that it is to have, or where clients may change none; and, where there are users, a change by
/// what a client sends before its login.
pub fn nothing_else_is_asked_for()
    ensures commit { (s : Settings) (env : Env) (edit : MachineEdit) (t : ItemValue) (ask : CommitAsk) (txn : TxnState)
        → IsAsked s env (Editing edit) (Whole t) (Commits ask txn)
        → (editor_command t ≡ Ok CloseEdit) × (finished edit.editor ≡ Ok txn)
        × (ask.author ≡ edit.client.user) × (ask.tokens ≡ edit.asked.tokens) }
    ensures release { (s : Settings) (env : Env) (edit : MachineEdit) (t : ItemValue) (user : Option (List ℕ)) (tokens : HandedTokens)
        → IsAsked s env (Editing edit) (Whole t) (Releases user tokens)
        → (user ≡ edit.client.user) × (tokens ≡ edit.asked.tokens) }
    ensures property { (s : Settings) (env : Env) (client : Client) (t : ItemValue) (ask : PropertyAsk)
        → IsAsked s env (Serving client) (Whole t) (ChangesProperty ask)
        → (s.revprops ≡ true) × (main_command client.is_of_today t ≡ Ok (ChangeRevProp ask)) }
    ensures within_edit { (s : Settings) (env : Env) (edit : MachineEdit) (t : ItemValue) (ask : PropertyAsk)
        → IsAsked s env (Editing edit) (Whole t) (ChangesProperty ask) → ⊥ }
    ensures login { (s : Settings) (env : Env) (login : OpenLogin) (t : ItemValue) (e : Accepted)
        → IsAsked s env (LoggingIn login) (Whole t) e → s.users ≡ None }
{}

/// Shows that, whatever happens, and whatever calls come, the repository has gone on by the changes that were asked
/// for, each accepted in the state that those before it make, and by nothing else.
pub fn only_accepted_changes()
    ensures { AlwaysBy (λ old changes new. GoesOnBy old.content changes new.content) }
{}

/// Shows that changes that were asked for respect locks, at an event, whatever happens, and whatever calls come: each
/// lock in the way of a commit among them is its user's, and its token was handed in; at a path that no change names
/// the lock stays as it was; and where no two locks have one token, and each new lock has a token that none has then,
/// no two come to have one.
pub fn locks_are_respected()
    ensures { AlwaysBy (λ old changes new. RespectLocks old.content changes new.content) }
{
    only_accepted_changes();
    pathlocks::accepted_commits_hold_locks();
    pathlocks::unnamed_locks_stay();
    pathlocks::tokens_stay_distinct();
}

/// Shows that, where no two locks have one token, as in a new hub, and each word that is used up by a lock has a token
/// that none has which exists then, no two locks come to have one, whatever happens, and whatever calls come.
pub fn no_two_locks_have_one_token()
    ensures at_first { (settings : Settings) (uuid : ℕ) (date : List ℕ)
        → HaveOwnTokens (new_hub settings uuid date).content.locks }
    ensures events { OfRuns (λ old env events told new after run. HaveOwnTokens old.content.locks
        → MakesNewTokens old env events told new after run → HaveOwnTokens new.content.locks) }
    ensures calls { OfCalls (λ old calls outcomes new run. HaveOwnTokens old.content.locks
        → CallsMakeNewTokens old calls outcomes new run → HaveOwnTokens new.content.locks) }
{
    pathlocks::accepted_commits_hold_locks();
    pathlocks::unnamed_locks_stay();
    pathlocks::tokens_stay_distinct();
}

/// Shows that the settings and the repository's name among all repositories never change.
pub fn constants_stay()
    ensures { Always KeepsConstants }
{}

/// Shows that properties of revisions that exist stay the same, but for those that were asked to be changed: at an
/// event, whatever happens, and whatever calls come. Where clients may not change them, all stay the same.
pub fn revision_properties_stay()
    ensures others { AlwaysBy (λ old changes new. KeepsOtherProperties old.content changes new.content) }
    ensures closed { Always (λ old new. old.settings.revprops ≡ false
        → KeepsProperties old.content new.content) }
{
    only_accepted_changes();
    repo_laws::changes_of_properties_keep_revisions();
}

/// Shows that the count of the store's failures never falls.
pub fn failures_never_fall()
    ensures { Always (λ old new. old.failures ≤ last_count → old.failures ≤ new.failures) }
{}

/// Shows that, where the store has not failed, changes have not come to a halt. (By its count, which stays at its
/// greatest value.)
pub fn halts_are_counted()
    ensures { Always (λ old new. old.failures < last_count → new.failures ≡ old.failures
        → new.halted ≡ old.halted) }
{}

/// Shows that after a halt nothing changes the repository any more, it stays so, and what was being saved then stays
/// known.
pub fn a_halt_stays()
    ensures { Always (λ old new. old.halted ≡ true → (new.halted ≡ true)
        × (new.content ≡ old.content) × (new.pending ≡ old.pending)) }
{}

/// Shows that what a stream brings does not depend on how it is cut: what the first part brings comes first, and then
/// what its rest and the second part bring.
pub fn cut_anywhere()
    ensures { (first second : List ℕ) (inputs more : List Input) (rest end : List ℕ)
        → IsUnbroken inputs → Yields first inputs rest → Yields (rest ++ second) more end
        → Yields (first ++ second) (inputs ++ more) end }
{}

/// Shows that every tree is a tree, those of the revisions and those of the open edits: where it is so, it stays so,
/// whatever happens, whatever has come of a stream, and whatever calls come.
pub fn trees_stay_trees()
    ensures always { Always (λ old new. HasTrees old → HasTrees new) }
    ensures streams { (old : HubState) (n : ℕ) (session : SessionState) (rest : List ℕ)
        → session_of old.sessions n ≡ Some session → HasTrees old → HasTrees (with_rest old n session rest) }
{
    machine::steps_keep_trees();
}

/// Shows that a commit never overwrites what was changed since its base, by others or by its transaction, whatever
/// happens to a hub in which every tree is a tree, and whatever it is called for.
pub fn commits_overwrite_nothing()
    ensures { AlwaysBy (λ old changes new. HasTrees old → AllKeepSides old.content changes) }
{
    machine::steps_keep_trees();
}

/// Shows that the trees of a new repository are sound: a hub may be made over it.
pub fn new_repositories_are_sound()
    ensures { (c : RepoState) (uuid : ℕ) (date : List ℕ) → c ≡ new_repository uuid date
        → AreSound c.revisions }
{
    repo_laws::opening_is_a_tree();
    repo_laws::opening_is_marked();
}

/// Shows that every tree is a tree in a hub to which nobody has connected yet, over a new repository, or over one whose
/// trees are sound.
pub fn new_trees_are_trees()
    ensures of_new { (settings : Settings) (uuid : ℕ) (date : List ℕ)
        → HasTrees (new_hub settings uuid date) }
    ensures of_sound { (settings : Settings) (point : Point) → AreSound (content_of point).revisions
        → HasTrees (hub_at settings point [] 0) }
{
    new_repositories_are_sound();
}

/// Shows that the tree of each revision is a tree, whatever happens to a hub in which every tree is one, and whatever
/// it is called for.
pub fn revisions_are_trees()
    ensures { Always (λ old new. HasTrees old → AreTrees new.content.revisions) }
{
    trees_stay_trees();
}

/// Shows that marks name what they mark, whatever happens to such a hub, and whatever it is called for: in the tree of
/// each revision no mark is open, a `last` names all that is at and under its path, and an `own` the kind, the
/// properties and the text there.
pub fn marks_name_what_they_mark()
    ensures { Always (λ old new. HasTrees old → AreMarked (trees_in new.content.revisions)) }
{
    trees_stay_trees();
}

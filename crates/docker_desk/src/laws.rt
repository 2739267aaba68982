//! Laws of every session. Each law is the contract of a function that does nothing. The law holds
//! for all values of the variables in the function's clauses.
ghost use Rattle.std.specs.Prelude.{◌≡◌, ◌≤◌, ◌++◌, ℕ, List, Some, false, length};
ghost use Rattle.docker_model.specs.state.Lapse.{IsDayRefused, lapse_table};
ghost use Rattle.docker_model.specs.state.State.{State, live_table};
ghost use Rattle.docker_model.specs.state.StateText.{dks_2, state_text};
ghost use Rattle.docker_model.specs.state.Summary.{HaveDistinctMoments};
ghost use Rattle.docker_model.specs.state.Table.{Table, IsPlainTable};
ghost use Rattle.docker_model.specs.docker.DockerText.{IsDockerText};
ghost use Rattle.docker_model.specs.docker.DetailedText.{IsDetailedText};
ghost use Rattle.docker_model.specs.docker.Permanent.{permanent_table};
ghost use Rattle.docker_model.specs.run.Run.{Known};
ghost use Rattle.docker_model.specs.run.Knowledge.{AreOneKnowledge, HaveSameFiles};
ghost use Rattle.docker_cmd.specs.Prepared.{DeviceBytes, most_bytes};
ghost use Rattle.docker_cmd.specs.Saved.{Gain, HoldsVersion};
ghost use Rattle.docker_host.specs.Asked.{IsUnplaced};
ghost use Rattle.cif_device.specs.Device.{Held};
ghost use Rattle.docker_host.specs.History.{Event};
ghost use Rattle.docker_host.specs.Standing.{IsStandingOf, IsStill, Standing};
ghost use Rattle.docker_desk.specs.Lines.{AreLines, LineView};
ghost use Rattle.docker_model.specs.lists.TrainsText.{IsTrainsText};
ghost use Rattle.docker_model.specs.lists.TrainText.{IsTrainText};
ghost use Rattle.docker_model.specs.lists.KnownText.{IsKnownText};
ghost use Rattle.docker_model.specs.lists.PlacesText.{IsPlacesText};
ghost use Rattle.docker_office.specs.Office.{HoldsState};
ghost use Rattle.docker_office.specs.declared.fault.OfficeFault.{OfficeFault};
ghost use Rattle.docker_office.specs.RunEnds.{EndsWith, PrintsAs};
ghost use Rattle.docker_desk.specs.Answering.{EndsSession, answers_of, lines_of};
ghost use Rattle.docker_desk.specs.Doing.{AreSteps, DoesRequest};
ghost use Rattle.docker_desk.specs.Learning.{AllHearKnown, AreLearned, DetailsAs, GainedBy, HearsState, HoldsKnown, IsKnown, IsPlaced, IsTrainOf, IsUnsaved, KeepsAs, KnowsAt, ListsTrainsAs, MayBePlaced, MayPlaceKnown, PlacesKnown, renewing};
ghost use Rattle.docker_desk.specs.SessionViews.{SessionView, Setting, Step};
ghost use Rattle.docker_desk.specs.Reading.{events_of};
ghost use Rattle.docker_desk.specs.Replies.{done_with, refused_for};
ghost use Rattle.docker_desk.specs.Requests.{merge_request, renew_request, save_request};
ghost use Rattle.docker_desk.specs.Looking.{IsGoodLook, ReplacesOwn, WasInState};
ghost use Rattle.docker_desk.specs.Serving.{BeginsAt};
ghost use Rattle.docker_desk.specs.declared.ending.Ending.{Ending};
ghost use Rattle.docker_desk.specs.declared.ending.Ending.TheVariants.{Ended};

use docker_train::laws::{
    files_fix_trains_text, found_train_is_plain, train_came_from_a_file, trains_text_is_plain,
};
use state_lists::laws::{one_known_text, one_places_text};

/// Suppose that, when a session began, STATE held the text of the summary of some files and a
/// horizon. Then the first state of the session is that summary. Each later state is the summary of
/// these files and of all that was taken and received until then, with the latest horizon.
pub fn known_files_fix_sessions()
    ensures begins { (name : List ℕ) (old : List Event) (first : SessionView) (start : Known)
        (sent : State) → (begins : BeginsAt name old first)
        → HoldsState dks_2 most_bytes begins.held sent → IsKnown start sent
        → IsKnown start first.desk.state }
    ensures goes_on { (setting : Setting) (first last : SessionView) (steps : List Step)
        (old new : Known) → IsKnown old first.desk.state → AreSteps setting first steps last
        → AreLearned setting old steps new → IsKnown new last.desk.state }
    ensures knows { (setting : Setting) (known : Known) (state : State)
        → KnowsAt setting known state → IsKnown known state }
{}

/// Each point of a session has a look, on which the next draft is based. This look directly
/// precedes an opening of the state's file, whose text was then read, or directly follows a
/// replacement of the file with the desk's own text. So a text that arrived between the look and
/// the reading is never overwritten unread. Either the desk has read that text, or the file was
/// replaced after the look and the draft is refused.
pub fn looks_come_before_readings()
    ensures { (setting : Setting) (old : List Event) (first last : SessionView) (steps : List Step)
        → BeginsAt setting.name old first → AreSteps setting first steps last
        → IsGoodLook setting.name last.history last.look }
{}

/// A desk never overwrites a text unread. Suppose that contracts can say which bytes the files of the
/// folder hold (`standing`). When a desk makes a draft, STATE has held the same bytes since the look
/// on which the draft is based. The desk has opened these bytes, and read them as the whole text of a
/// state, or has placed them itself.
pub fn saves_replace_what_was_read()
    ensures saved { (standing : Standing) (setting : Setting) (first before after : SessionView)
        (steps : List Step) (old : List Event) (answer : List ℕ)
        → BeginsAt setting.name old first → AreSteps setting first steps before
        → DoesRequest setting save_request before (done_with answer) after
        → IsStandingOf standing after.history → ReplacesOwn standing setting before }
    ensures may_be_saved { (standing : Standing) (setting : Setting)
        (first before after : SessionView) (steps : List Step) (old : List Event)
        (text : List ℕ) → BeginsAt setting.name old first → AreSteps setting first steps before
        → IsUnplaced setting.names_bytes setting.name before.look text before.history after.history
        → IsStandingOf standing after.history → ReplacesOwn standing setting before }
{}

/// If a desk has no unsaved changes, STATE has held the text of the desk's state. The desk read this
/// text right after its last look, or placed it right before that look. If STATE's bytes have stayed
/// the same since the look, STATE still holds this text. A `renew` that is refused changes neither
/// the desk nor its look, whatever STATE holds then. So the desk's flag for unsaved changes still
/// refers to the text that the desk last read as a state or placed.
pub fn what_is_not_unsaved_is_in_state()
    ensures held { (setting : Setting) (old : List Event) (first last : SessionView)
        (steps : List Step) → BeginsAt setting.name old first → AreSteps setting first steps last
        → last.desk.unsaved ≡ false → WasInState setting last }
    ensures holds { (standing : Standing) (setting : Setting) (old : List Event)
        (first last : SessionView) (steps : List Step) → BeginsAt setting.name old first
        → AreSteps setting first steps last → last.desk.unsaved ≡ false
        → IsStandingOf standing last.history
        → IsStill standing setting.name last.look (length last.history)
        → Held (standing (length last.history) setting.name)
        (state_text dks_2 last.desk.state) }
    ensures refused { (setting : Setting) (before after : SessionView) (fault : OfficeFault)
        → DoesRequest setting renew_request before (refused_for fault) after
        → (after.desk ≡ before.desk) × (after.look ≡ before.look) }
{}

/// Suppose that the file that `merge` or `renew` read held the text of a summary. Then the desk
/// learns that summary from the file. If each file that `merge` or `renew` reads holds such a text,
/// the steps determine what the desk knows after each of them. So the law
/// `known_files_fix_sessions` applies to the whole session.
pub fn known_texts_are_heard()
    ensures merged { (setting : Setting) (other text : List ℕ) (before after : SessionView)
        (known : Known) → DoesRequest setting (merge_request other) before (done_with text) after
        → HoldsKnown (events_of other) before after known
        → HearsState (events_of other) before after known }
    ensures renewed { (setting : Setting) (text : List ℕ) (before after : SessionView)
        (known : Known)
        → DoesRequest setting renew_request before (done_with text) after
        → HoldsKnown (renewing setting.name) before after known
        → HearsState (renewing setting.name) before after known }
    ensures learned { (setting : Setting) (first last : SessionView) (steps : List Step)
        (old : Known)
        → AreSteps setting first steps last → AllHearKnown setting steps
        → (new : Known) × AreLearned setting old steps new }
{}

/// If a desk replaces its state's file, the new text is the text of a summary: the summary of what
/// the desk then knew. If replacing the file failed, the file holds either this text or what it held
/// before. A `save` that is refused for any other reason stores nothing.
pub fn saves_tell_what_is_known()
    ensures saved { (setting : Setting) (text : List ℕ) (before after : SessionView)
        (known : Known) → IsKnown known before.desk.state
        → DoesRequest setting save_request before (done_with text) after
        → PlacesKnown setting before after known }
    ensures refused { (setting : Setting) (fault : OfficeFault) (before after : SessionView)
        (known : Known) → IsKnown known before.desk.state
        → DoesRequest setting save_request before (refused_for fault) after
        → IsUnsaved setting before after fault (MayPlaceKnown setting before after known) }
{}

/// What a desk saves is a new version of its state's file. The new version is the text of a state
/// that was read from version number `own` of `earlier`. Before `save`, this state gained what the
/// desk's state gained in the earlier steps of the session. `earlier` lists the texts of all
/// versions, of any state's file, that were made before the new one. If replacing the file failed,
/// the file holds either the new version or what it held before. A `save` that is refused for any
/// other reason stores nothing.
pub fn saves_are_versions()
    ensures saved { (setting : Setting) (first before after : SessionView) (steps : List Step)
        (old : List Event) (earlier : List (List ℕ)) (own : ℕ) (gains : List Gain)
        (answer : List ℕ) → (begins : BeginsAt setting.name old first)
        → HoldsVersion earlier begins.held own → AreSteps setting first steps before
        → GainedBy setting earlier steps gains
        → DoesRequest setting save_request before (done_with answer) after
        → IsPlaced setting earlier own gains before after }
    ensures refused { (setting : Setting) (first before after : SessionView) (steps : List Step)
        (old : List Event) (earlier : List (List ℕ)) (own : ℕ) (gains : List Gain)
        (fault : OfficeFault) → (begins : BeginsAt setting.name old first)
        → HoldsVersion earlier begins.held own → AreSteps setting first steps before
        → GainedBy setting earlier steps gains
        → DoesRequest setting save_request before (refused_for fault) after
        → IsUnsaved setting before after fault
        (MayBePlaced setting earlier own gains before after) }
{}

/// A session can be split at any step. The steps before that step end at a point, and the later
/// steps begin at this point. So whatever a law says of a session's last point is true of every
/// point.
pub fn each_point_is_a_last_one()
    ensures { (setting : Setting) (first last : SessionView) (earlier later : List Step)
        → AreSteps setting first (earlier ++ later) last → (between : SessionView)
        × AreSteps setting first earlier between × AreSteps setting between later last }
{}

/// At the end of a run, the state of an office is the summary of what the office knows. So the laws
/// that assume that a desk's state is such a summary also apply to an office's state.
pub fn offices_know_as_desks()
    ensures { (known : Known) (state : State) → EndsWith known state → IsKnown known state }
{}

/// Two desks that know the same files and the same horizon have equal states, and so equal texts.
/// Two desks that know the same files, even with different horizons, print the same docker for each
/// timing point and each day that isn't refused under either desk's horizon. The law is also true
/// if an office of a run takes the place of one desk.
pub fn known_files_fix_states()
    ensures state { (first second : Known) (one two : State) → IsKnown first one
        → IsKnown second two → AreOneKnowledge first second → one ≡ two }
    ensures text { (first second : Known) (one two : State) → IsKnown first one
        → IsKnown second two → AreOneKnowledge first second
        → state_text dks_2 one ≡ state_text dks_2 two }
    ensures docker { (first second : Known) (one two : State) → IsKnown first one
        → IsKnown second two → HaveSameFiles first.files second.files → (place : List ℕ) (day : ℕ)
        → ¬ IsDayRefused one.horizon day → ¬ IsDayRefused two.horizon day → (text other : List ℕ)
        → IsDockerText (live_table one) place day text
        → IsDockerText (live_table two) place day other → text ≡ other }
{}

/// If no two files that a desk knows have the same moment, there is a plain table of these files.
/// Each docker that the desk prints is the docker of this table.
pub fn dockers_are_of_the_plain_table()
    ensures { (known : Known) (state : State) → IsKnown known state
        → HaveDistinctMoments known.files
        → (plain : Table) × IsPlainTable known.files plain × PrintsAs state plain }
{}

/// Two desks that know the same files, even with different horizons, print the same permanent
/// docker for each timing point and each day that isn't refused under either desk's horizon. The
/// law is also true if an office of a run takes the place of one desk. If no two of the files have
/// the same moment, these dockers are the dockers of the plain table without its short-term
/// entries.
pub fn known_files_fix_permanent_answers()
    ensures docker { (first second : Known) (one two : State) → IsKnown first one
        → IsKnown second two → HaveSameFiles first.files second.files → (place : List ℕ) (day : ℕ)
        → ¬ IsDayRefused one.horizon day → ¬ IsDayRefused two.horizon day → (text other : List ℕ)
        → IsDockerText (permanent_table (live_table one)) place day text
        → IsDockerText (permanent_table (live_table two)) place day other → text ≡ other }
    ensures plain { (known : Known) (state : State) → IsKnown known state
        → HaveDistinctMoments known.files
        → (plain : Table) × IsPlainTable known.files plain × KeepsAs state plain }
{}

/// Two desks that know the same files, even with different horizons, print the same detailed docker
/// for each timing point and each day that isn't refused under either desk's horizon. Their
/// permanent detailed dockers are also the same. The law is also true if an office of a run takes
/// the place of one desk. If no two of the files have the same moment, these are the detailed
/// dockers of the plain table.
pub fn known_files_fix_detail_answers()
    ensures docker { (first second : Known) (one two : State) → IsKnown first one
        → IsKnown second two → HaveSameFiles first.files second.files → (place : List ℕ) (day : ℕ)
        → ¬ IsDayRefused one.horizon day → ¬ IsDayRefused two.horizon day → (text other : List ℕ)
        → IsDetailedText (live_table one) place day text
        → IsDetailedText (live_table two) place day other → text ≡ other }
    ensures permanent { (first second : Known) (one two : State) → IsKnown first one
        → IsKnown second two → HaveSameFiles first.files second.files → (place : List ℕ) (day : ℕ)
        → ¬ IsDayRefused one.horizon day → ¬ IsDayRefused two.horizon day → (text other : List ℕ)
        → IsDetailedText (permanent_table (live_table one)) place day text
        → IsDetailedText (permanent_table (live_table two)) place day other → text ≡ other }
    ensures plain { (known : Known) (state : State) → IsKnown known state
        → HaveDistinctMoments known.files
        → (plain : Table) × IsPlainTable known.files plain × DetailsAs state plain }
{}

/// Each schedule that `train` shows came from a known file. If no two known files have the same
/// moment, `train` shows the schedule chosen from the plain table of these files for the UID on the
/// day.
pub fn trains_came_from_known_files()
    ensures { (known : Known) (state : State) (uid : List ℕ) (day : ℕ) (text : List ℕ)
        → IsKnown known state → IsTrainText state uid day text → state.horizon ≤ day
        → IsTrainOf known uid day text }
{
    // These calls are made only for their contracts. The contracts state the law for the files of
    // any summary.
    train_came_from_a_file();
    found_train_is_plain();
}

/// Two desks that know the same files, even with different horizons, give the same answer to
/// `trains` for each train identity and each day that isn't before either desk's horizon. The law
/// is also true if an office of a run takes the place of one desk. If no two of the files have the
/// same moment, these answers list the trains of the plain table.
pub fn known_files_fix_train_lists()
    ensures list { (first second : Known) (one two : State) → IsKnown first one
        → IsKnown second two → HaveSameFiles first.files second.files → (identity : List ℕ)
        (day : ℕ) → one.horizon ≤ day → two.horizon ≤ day → (text other : List ℕ)
        → IsTrainsText (live_table one) identity day text
        → IsTrainsText (live_table two) identity day other → text ≡ other }
    ensures plain { (known : Known) (state : State) → IsKnown known state
        → HaveDistinctMoments known.files
        → (plain : Table) × IsPlainTable known.files plain × ListsTrainsAs state plain }
{
    // These calls are made only for their contracts. The contracts state the law for any summaries.
    files_fix_trains_text();
    trains_text_is_plain();
}

/// Two desks that know the same files and the same horizon give the same answer to `places`, and
/// the same answer to `known`. The law is also true if an office of a run takes the place of one
/// desk.
pub fn known_files_fix_lists()
    ensures places { (first second : Known) (one two : State) → IsKnown first one
        → IsKnown second two → AreOneKnowledge first second → (text other : List ℕ)
        → IsPlacesText (live_table one) text → IsPlacesText (live_table two) other → text ≡ other }
    ensures known { (first second : Known) (one two : State) → IsKnown first one
        → IsKnown second two → AreOneKnowledge first second → (text other : List ℕ)
        → IsKnownText one text → IsKnownText two other → text ≡ other }
{
    // These calls are made only for their contracts. By these contracts, a state has only one list
    // of timing points, and only one text that answers `known`.
    one_places_text();
    one_known_text();
}

/// If no two files that a desk knows have the same moment, there is a plain table of these files.
/// The desk lists the timing points of this table, after the bodies that ended before the horizon
/// have lapsed.
pub fn places_are_of_the_plain_table()
    ensures { (known : Known) (state : State) → IsKnown known state
        → HaveDistinctMoments known.files → (plain : Table) × IsPlainTable known.files plain
        × ((text : List ℕ) → IsPlacesText (live_table state) text
        → IsPlacesText (lapse_table known.horizon plain) text) }
{}

/// There is only one way to divide a text into lines.
pub fn an_input_has_one_reading()
    ensures { (text : List ℕ) (lines others : List LineView) → AreLines text lines
        → AreLines text others → lines ≡ others }
{}

/// Each line of the input that was answered has exactly one answer. If the session ended at the end
/// of the input, these lines are all the lines of the input.
pub fn each_line_has_one_answer()
    ensures one { (ending : Ending) (input output output_now : DeviceBytes) (steps : List Step)
        → EndsSession ending input steps output output_now
        → length (answers_of steps) ≡ length (lines_of steps) }
    ensures all { (text : List ℕ) (lines : List LineView) (output output_now : DeviceBytes)
        (steps : List Step) → AreLines text lines
        → EndsSession Ended (Some text) steps output output_now → lines_of steps ≡ lines }
{}

//! The laws of runs. Offices may take files, and send, receive and reload states. Messages may be
//! lost, repeated or reordered. In each run, the files and the horizon that an office knows
//! determine the bytes of its state, and its dockers. Each law is the contract of a function with
//! an empty body, so it holds for all values of its variables.
ghost use Rattle.std.specs.Prelude.{◌≡◌, ℕ, List};
ghost use Rattle.docker_model.specs.state.State.{State, live_table};
ghost use Rattle.docker_model.specs.state.StateText.{dks_2, state_text};
ghost use Rattle.docker_model.specs.state.Summary.{HaveDistinctMoments};
ghost use Rattle.docker_model.specs.state.Table.{Table, IsPlainTable};
ghost use Rattle.docker_model.specs.state.Lapse.{IsDayRefused};
ghost use Rattle.docker_model.specs.docker.DockerText.{IsDockerText};
ghost use Rattle.docker_model.specs.run.Run.{Known};
ghost use Rattle.docker_model.specs.run.Knowledge.{AreOneKnowledge, HaveSameFiles};
ghost use Rattle.docker_office.specs.RunEnds.{EndsWith, PrintsAs};

/// Two offices that know the same files and the same horizon have equal states. So the texts of the
/// two states are equal byte for byte. The offices may be in one run or in two different runs.
pub fn known_files_fix_states()
    ensures state { (first second : Known) (one two : State) → EndsWith first one
        → EndsWith second two → AreOneKnowledge first second → one ≡ two }
    ensures text { (first second : Known) (one two : State) → EndsWith first one
        → EndsWith second two → AreOneKnowledge first second
        → state_text dks_2 one ≡ state_text dks_2 two }
{}

/// Two offices that know the same files print the same dockers, for each timing point and each day
/// that neither office refuses. Their horizons may differ. The offices may be in one run or in two
/// different runs.
pub fn known_files_fix_dockers()
    ensures { (first second : Known) (one two : State) → EndsWith first one → EndsWith second two
        → HaveSameFiles first.files second.files → (place : List ℕ) (day : ℕ)
        → ¬ IsDayRefused one.horizon day → ¬ IsDayRefused two.horizon day → (text other : List ℕ)
        → IsDockerText (live_table one) place day text
        → IsDockerText (live_table two) place day other → text ≡ other }
{}

/// If no two files that an office knows have the same moment, there is a plain table of these
/// files. The plain table results from applying the newest full extract, and then each later update
/// in the order of the updates' moments. Each docker that the office prints is the docker of this
/// table.
pub fn dockers_are_of_the_plain_table()
    ensures { (known : Known) (state : State) → EndsWith known state
        → HaveDistinctMoments known.files
        → (plain : Table) × IsPlainTable known.files plain × PrintsAs state plain }
{}

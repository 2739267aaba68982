//! A job: what the words of a command ask for.
ghost use Rattle.std.specs.Prelude.{◌≡◌, length, map, string_bytes};
ghost use Rattle.docker_cmd.specs.Tasks.{day_of, ids_of, subcommand_of, task_meant, tiploc_of};
ghost use Rattle.docker_cmd.specs.Job.{JobView};

use crate::tasks::{Subcommand, Task};
use cif_line::{Day, Tiploc};
use std::marker::Model;

/// A job: its task, and the words after the subcommand.
#[derive(Debug, Drop)]
pub struct Job {
    task: Task,
    words: Vec<String>,
}

impl Model for Job {
    ghost Value = { JobView };

    ghost view = { λ job. record {
      task = task_meant job.task;
      words = map (λ word. string_bytes word) job.words.items;
    } };

    ghost invariant = { λ job. length job.words.items
        ≡ length (ids_of (subcommand_of (task_meant job.task))) };
}

impl Job {
    /// Returns the job with this task and these words after the subcommand.
    pub(crate) fn new(task: Task, words: Vec<String>) -> Job
        requires { length words.items ≡ length (ids_of (subcommand_of (task_meant task))) }
        ensures task { result.task ≡ task_meant task }
        ensures words { result.words ≡ map (λ word. string_bytes word) words.items }
    {
        Job { task, words }
    }

    /// Returns the job's task.
    pub fn task(&self) -> Task
        ensures { task_meant result ≡ self.now.task }
    {
        self.task
    }

    /// Returns the job's subcommand.
    pub fn subcommand(&self) -> Subcommand
        ensures { result ≡ subcommand_of self.now.task }
    {
        self.task.subcommand()
    }

    /// Returns the words after the subcommand. There are exactly as many as the subcommand
    /// requires.
    pub fn words(&self) -> &[String]
        ensures words { map (λ word. string_bytes word) result.now ≡ self.now.words }
        ensures count { length result.now ≡ length (ids_of (subcommand_of self.now.task)) }
    {
        self.words.as_slice()
    }

    /// Returns the timing point that the words name; `None` if the subcommand takes no timing
    /// point.
    pub fn tiploc(&self) -> Option<Tiploc>
        ensures { result ≡ tiploc_of self.now.task }
    {
        self.task.tiploc()
    }

    /// Returns the day that the words name; `None` if the subcommand takes no day.
    pub fn day(&self) -> Option<Day>
        ensures { result ≡ day_of self.now.task }
    {
        self.task.day()
    }
}

//! The result of a run.
ghost use Rattle.std.specs.Prelude.{◌≡◌, All, map};
ghost use Rattle.docker_model.specs.run.Run as model;
ghost use Rattle.docker_office.specs.RunMeaning.{IsRunReply, reply_meant, texts_of};

use crate::office::Office;
use crate::reply::Reply;
use cif_line::Kept;
use std::marker::Model;

/// The result of a run: the offices, all messages that were sent, and a reply to each event.
#[derive(Debug, Drop)]
pub struct Exchange {
    offices: Vec<Office>,
    messages: Vec<Kept>,
    replies: Vec<Reply>,
}

impl Model for Exchange {
    ghost Value = { model.Exchange };

    ghost view = { λ exchange. record {
      states = exchange.offices.items;
      messages = texts_of exchange.messages.items;
      replies = map reply_meant exchange.replies.items;
    } };

    ghost invariant = { λ exchange. All IsRunReply exchange.replies.items };
}

impl Exchange {
    /// Returns the result of a run with these offices, messages and replies.
    pub(crate) fn of(offices: Vec<Office>, messages: Vec<Kept>, replies: Vec<Reply>) -> Exchange
        requires { All IsRunReply replies.items }
        ensures { result ≡ record {
          states = offices.items;
          messages = texts_of messages.items;
          replies = map reply_meant replies.items;
        } }
    {
        Exchange {
            offices,
            messages,
            replies,
        }
    }

    /// Returns the offices, with their states at the end of the run.
    pub fn offices(&self) -> &[Office]
        ensures { result.now ≡ self.now.states }
    {
        self.offices.as_slice()
    }

    /// Returns all messages, whether they were delivered or not, in the order in which they were
    /// sent. Each message holds its whole text.
    pub fn messages(&self) -> &[Kept]
        ensures { texts_of result.now ≡ self.now.messages }
    {
        self.messages.as_slice()
    }

    /// Returns the replies, one for each event, in the order of the events. The only office faults
    /// among the replies are `File` and `Memory`.
    pub fn replies(&self) -> &[Reply]
        ensures meant { map reply_meant result.now ≡ self.now.replies }
        ensures each { All IsRunReply result.now }
    {
        self.replies.as_slice()
    }
}

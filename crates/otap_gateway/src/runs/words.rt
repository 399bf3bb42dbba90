//! The words that the program is called with.
ghost use Rattle.std.specs.Prelude.{◌≡◌, [], ◌∷◌, ◌++◌, OnOk, OnErr, MatchOption};
ghost use Rattle.otap_gateway.specs.Commands.{IsNoCommand, words_of};
ghost use Rattle.otap_gateway.specs.Endings.{IsEnding, IsNoEnding, ending_words};
ghost use Rattle.otap_gateway.specs.Loads.{IsLoad, IsNoLoad, load_words};
ghost use Rattle.otap_gateway.specs.Unfiling.{IsUnfile, IsNoUnfile, unfile_words};

use crate::jobs::command::{Command, five_words, one_word, two_words};
use crate::jobs::ending::{Ending, ending_of, file_of};
use crate::jobs::unfile::{Unfile, unfile_of};
use crate::runs::load::{Load, three_words};
use std::alloc::{AllocError, Global};
use std::marker::Model;

/// A list of words.
#[derive(Drop)]
pub struct Words {
    alloc: Global,
    words: Vec<String>,
}

impl Model for Words {
    ghost use Rattle.std.specs.Prelude.{List, ℕ, map, string_bytes};

    ghost Value = { List (List ℕ) };

    ghost view = { λ s. map (λ word. string_bytes word) s.words.items };
}

impl Words {
    /// No words.
    pub fn new(alloc: Global) -> Words
        ensures { result ≡ [] }
    {
        Words {
            alloc,
            words: Vec::new(alloc),
        }
    }

    /// Adds a word at the end. After a refusal the words are as before.
    pub fn push(&mut self, word: &str) -> Result<(), AllocError>
        ensures ok { OnOk result (self.new ≡ self.old ++ word.now ∷ []) }
        ensures err { OnErr result (self.new ≡ self.old) }
    {
        let word = String::from_str(self.alloc, word)?;
        self.words.push(word)?;
        Ok(())
    }

    /// The job that these are the words of.
    pub(crate) fn command(&self) -> Option<Command<'_>>
        ensures { MatchOption result (IsNoCommand self.now) (λ command. self.now ≡ words_of command) }
    {
        match self.words.as_slice() {
            [job] => one_word(job.as_str()),
            [job, signal] => two_words(job.as_str(), signal.as_str()),
            [job, signal, whose, key, text] => five_words(
                job.as_str(),
                signal.as_str(),
                whose.as_str(),
                key.as_str(),
                text.as_str(),
            ),
            _ => None,
        }
    }

    /// The job that these are the words of, where it adds something at the end of the capture.
    pub(crate) fn ending(&self) -> Option<Ending>
        ensures { MatchOption result (IsNoEnding self.now) (λ job. IsEnding job × (self.now ≡ ending_words job)) }
    {
        match self.words.as_slice() {
            [job, signal, last] => ending_of(job.as_str(), signal.as_str(), last.as_str()),
            [job, signal, kind, number] => file_of(
                job.as_str(),
                signal.as_str(),
                kind.as_str(),
                number.as_str(),
            ),
            _ => None,
        }
    }

    /// The job `unfile`, where these are its words.
    pub(crate) fn unfile(&self) -> Option<Unfile>
        ensures { MatchOption result (IsNoUnfile self.now) (λ job. IsUnfile job × (self.now ≡ unfile_words job)) }
    {
        match self.words.as_slice() {
            [job, signal, kind] => unfile_of(job.as_str(), signal.as_str(), kind.as_str()),
            _ => None,
        }
    }

    /// The load that these are the words of.
    pub(crate) fn load(&self) -> Option<Load>
        ensures { MatchOption result (IsNoLoad self.now) (λ load. IsLoad load × (self.now ≡ load_words load)) }
    {
        match self.words.as_slice() {
            [job, signal, requests] => {
                three_words(job.as_str(), signal.as_str(), requests.as_str())
            }
            _ => None,
        }
    }
}

//! What is wished.

use crate::failure::Failure;
use crate::scenario::Scenario;
use std::alloc::Global;

/// The most members.
const MOST_MEMBERS: u32 = 100_000;

/// One run.
#[derive(Clone, Copy, Debug)]
pub(crate) struct Run {
    pub(crate) scenario: Scenario,
    pub(crate) members: u32,
    /// How long it takes, in seconds.
    pub(crate) seconds: u64,
    pub(crate) seed: u64,
    /// How many of a hundred datagrams are lost.
    pub(crate) loss: u32,
    /// How long a datagram is under way at most, in microseconds.
    pub(crate) delay: u64,
}

/// All runs: the same one for each size.
#[derive(Drop)]
pub(crate) struct Wish {
    scenario: Scenario,
    seconds: Option<u64>,
    seed: u64,
    loss: u32,
    delay: u64,
    pub(crate) sizes: Vec<u32>,
}

/// What the next word is.
#[derive(Clone, Copy, Debug, PartialEq, Eq)]
enum Setting {
    Seconds,
    Seed,
    Loss,
    Delay,
}

impl Setting {
    fn named(word: &str) -> Option<Setting> {
        match word {
            "--seconds" => Some(Setting::Seconds),
            "--seed" => Some(Setting::Seed),
            "--loss" => Some(Setting::Loss),
            "--delay" => Some(Setting::Delay),
            _ => None,
        }
    }
}

impl Wish {
    /// The run of this size.
    pub(crate) fn run(&self, members: u32) -> Run {
        Run {
            scenario: self.scenario,
            members,
            seconds: match self.seconds {
                Some(seconds) => seconds,
                None => self.scenario.seconds(),
            },
            seed: self.seed,
            loss: self.loss,
            delay: self.delay,
        }
    }

    fn set(&mut self, setting: Setting, word: &str) -> Result<(), Failure> {
        let number = word.parse::<u64>().map_err(|_| Failure::Usage)?;
        match setting {
            Setting::Seconds => self.seconds = Some(number),
            Setting::Seed => self.seed = number,
            Setting::Loss => self.loss = u32::try_from(number).map_err(|_| Failure::Usage)?,
            Setting::Delay => self.delay = number.saturating_mul(1000),
        }
        Ok(())
    }

    fn add(&mut self, word: &str) -> Result<(), Failure> {
        match word.parse::<u32>() {
            Ok(size) if 0 < size && size <= MOST_MEMBERS => {
                self.sizes.push(size).map_err(std::alloc::AllocError::from)?;
                Ok(())
            }
            _ => Err(Failure::Usage),
        }
    }
}

/// What these words ask for.
pub(crate) fn wished(alloc: Global, words: &[String]) -> Result<Wish, Failure> {
    let mut wish = Wish {
        scenario: Scenario::Kill,
        seconds: None,
        seed: 1,
        loss: 0,
        delay: 5000,
        sizes: Vec::new(alloc),
    };
    let mut expected: Option<Setting> = None;
    for word in words {
        let word = word.as_str();
        if let Some(setting) = expected {
            wish.set(setting, word)?;
            expected = None;
        } else if let Some(setting) = Setting::named(word) {
            expected = Some(setting);
        } else if let Some(scenario) = Scenario::named(word) {
            wish.scenario = scenario;
        } else {
            wish.add(word)?;
        }
    }
    if expected.is_some() || wish.sizes.is_empty() {
        return Err(Failure::Usage);
    }
    Ok(wish)
}

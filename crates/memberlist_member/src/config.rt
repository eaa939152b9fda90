//! How a member behaves.

ghost use Rattle.std.specs.Prelude.{◌≡◌, ◌*◌, ◌<◌, ◌↔◌, Decides, IfOk, IsOk};
ghost use Rattle.memberlist_member.specs.Configs.{HasIntervals, HasMultipliers, IsSound};
ghost use Rattle.memberlist_member.specs.Configs.{default_lan, default_local, default_wan};

use std::marker::Model;
use thiserror::Error;

/// The fewest bytes of a datagram (own): with a name of any length left out, a ping fits, behind a
/// label and encrypted.
const MIN_BUFFER: u16 = 576;

/// How a member behaves. A field has the name that memberlist's `Config` has for it (config.go), or
/// is said to be own; times are milliseconds.
#[derive(Clone, Copy, PartialEq, Eq)]
pub struct Config {
    /// Between two probes.
    pub probe_interval: u32,
    /// After so long without an answer to a ping others are asked.
    pub probe_timeout: u32,
    /// How many others are asked.
    pub indirect_checks: u32,
    /// A broadcast is sent so many times for each digit of the number of members.
    pub retransmit_mult: u16,
    /// A member is suspected at least so many probe intervals for each digit of the number of
    /// members; at most 6.
    pub suspicion_mult: u16,
    /// And at most so many times longer.
    pub suspicion_max_timeout_mult: u16,
    /// Between two exchanges of whole tables, in a cluster of at most 32 members.
    pub push_pull_interval: u32,
    /// A member that is not well waits up to so many times longer for answers.
    pub awareness_max_multiplier: u16,
    /// Between two rounds of gossip.
    pub gossip_interval: u32,
    /// How many members a round of gossip goes to.
    pub gossip_nodes: u32,
    /// How long gossip goes to a dead member; after that it is forgotten.
    pub gossip_to_the_dead_time: u32,
    /// The most bytes of a datagram.
    pub udp_buffer_size: u16,
    /// Whether what is sent is compressed where that makes it shorter.
    pub enable_compression: bool,
    /// How long a connection may take.
    pub tcp_timeout: u32,
    /// Between two attempts to reach a member that was lost (Serf's `ReconnectInterval`).
    pub reconnect_interval: u32,
    /// After so long a lost member is given up (Serf's `ReconnectTimeout`).
    pub reconnect_timeout: u32,
    /// Whether it only answers: it probes nobody, tells no news, and suspects nobody (own).
    pub is_silent: bool,
}

/// Why a member cannot behave so.
#[derive(Clone, Copy, Debug, PartialEq, Eq, Error)]
pub enum ConfigFault {
    /// Each interval and time is at least 1.
    #[error("an interval of 0")]
    NoInterval,
    /// The multipliers are at least 1, and `suspicion_mult` at most 6.
    #[error("a multiplier that is 0 or too large")]
    BadMultiplier,
    /// A datagram has at least 576 bytes.
    #[error("datagrams that are too short")]
    ShortDatagrams,
}

impl Config {
    /// For a local network (`DefaultLANConfig`).
    pub fn lan() -> Config
        ensures same { result ≡ default_lan }
        ensures sound { IsSound result }
    {
        Config {
            probe_interval: 1000,
            probe_timeout: 500,
            indirect_checks: 3,
            retransmit_mult: 4,
            suspicion_mult: 4,
            suspicion_max_timeout_mult: 6,
            push_pull_interval: 30_000,
            awareness_max_multiplier: 8,
            gossip_interval: 200,
            gossip_nodes: 3,
            gossip_to_the_dead_time: 30_000,
            udp_buffer_size: 1400,
            enable_compression: true,
            tcp_timeout: 10_000,
            reconnect_interval: 30_000,
            reconnect_timeout: 86_400_000,
            is_silent: false,
        }
    }

    /// For a wide network (`DefaultWANConfig`).
    pub fn wan() -> Config
        ensures same { result ≡ default_wan }
        ensures sound { IsSound result }
    {
        Config {
            probe_interval: 5000,
            probe_timeout: 3000,
            suspicion_mult: 6,
            push_pull_interval: 60_000,
            gossip_interval: 500,
            gossip_nodes: 4,
            gossip_to_the_dead_time: 60_000,
            tcp_timeout: 30_000,
            ..Config::lan()
        }
    }

    /// For members on one machine (`DefaultLocalConfig`).
    pub fn local() -> Config
        ensures same { result ≡ default_local }
        ensures sound { IsSound result }
    {
        Config {
            probe_timeout: 200,
            indirect_checks: 1,
            retransmit_mult: 2,
            suspicion_mult: 3,
            push_pull_interval: 15_000,
            gossip_interval: 100,
            gossip_to_the_dead_time: 15_000,
            tcp_timeout: 1000,
            ..Config::lan()
        }
    }
}

/// A configuration that was checked.
#[derive(Clone, Copy)]
pub struct Settings {
    config: Config,
}

impl Model for Settings {
    ghost use Rattle.memberlist_member.specs.Configs.{IsSound};
    ghost use Rattle.memberlist_member.specs.declared.config.Config.{Config};

    ghost Value = { Config };

    ghost view = { λ s. s.config };

    ghost invariant = { λ s. IsSound s.config };

    ghost inverse = { λ v. record { config = v } };
}

impl Settings {
    /// This configuration, if a member can behave so.
    ///
    /// # Errors
    ///
    /// The first of these that holds: `NoInterval`, `BadMultiplier`, `ShortDatagrams`.
    pub fn new(config: Config) -> Result<Settings, ConfigFault>
        ensures same { IfOk result (λ settings. settings ≡ config) }
        ensures sound { IsOk result ↔ IsSound config }

        ensures no_interval { (result ≡ Err ConfigFault.NoInterval) ↔ (¬ HasIntervals config) }
        ensures bad_multiplier { (result ≡ Err ConfigFault.BadMultiplier)
            ↔ (HasIntervals config × (¬ HasMultipliers config)) }
        ensures short_datagrams { (result ≡ Err ConfigFault.ShortDatagrams)
            ↔ (HasIntervals config × HasMultipliers config × (config.udp_buffer_size < 576)) }
    {
        if !has_intervals(&config) {
            return Err(ConfigFault::NoInterval);
        }
        if !has_multipliers(&config) {
            return Err(ConfigFault::BadMultiplier);
        }
        if config.udp_buffer_size < MIN_BUFFER {
            return Err(ConfigFault::ShortDatagrams);
        }
        Ok(Settings { config })
    }

    /// The configuration.
    pub fn config(&self) -> Config
        ensures same { result ≡ self.now }
        ensures sound { IsSound result }
    {
        self.config
    }
}

/// Whether no interval is 0.
fn has_intervals(config: &Config) -> bool
    ensures { Decides result (HasIntervals config.now) }
{
    config.probe_interval != 0
        && config.probe_timeout != 0
        && config.push_pull_interval != 0
        && config.gossip_interval != 0
        && config.tcp_timeout != 0
        && config.reconnect_interval != 0
}

/// Whether each multiplier is at least 1, and `suspicion_mult` at most 6.
fn has_multipliers(config: &Config) -> bool
    ensures { Decides result (HasMultipliers config.now) }
{
    config.retransmit_mult != 0
        && config.suspicion_mult != 0
        && config.suspicion_mult <= 6
        && config.suspicion_max_timeout_mult != 0
        && config.awareness_max_multiplier != 0
}

/// So many milliseconds in microseconds.
pub(crate) fn micros(millis: u32) -> u64
    ensures { result ≡ millis * 1000 }
{
    u64::from(millis) * 1000
}

//! How an agent behaves, as a program in another language says it.

ghost use Rattle.std.specs.Prelude.{◌≡◌};
ghost use Rattle.swim_c.specs.AgentOpening.{config_of, or_default};

use memberlist_member::Config;

/// How an agent behaves: the fields of memberlist's configuration. What is 0 is as in a local
/// network.
#[repr(C)]
#[derive(Clone, Copy)]
pub struct AgentSettings {
    pub probe_interval: u32,
    pub probe_timeout: u32,
    pub indirect_checks: u32,
    pub push_pull_interval: u32,
    pub gossip_interval: u32,
    pub gossip_nodes: u32,
    pub gossip_to_the_dead_time: u32,
    pub tcp_timeout: u32,
    pub reconnect_interval: u32,
    pub reconnect_timeout: u32,
    pub retransmit_mult: u16,
    pub suspicion_mult: u16,
    pub suspicion_max_timeout_mult: u16,
    pub awareness_max_multiplier: u16,
    pub udp_buffer_size: u16,
    pub is_silent: bool,
    pub is_uncompressed: bool,
}

impl AgentSettings {
    /// The configuration.
    pub fn config(&self) -> Config
        ensures { result ≡ config_of self.now }
    {
        let lan = Config::lan();
        Config {
            probe_interval: either(self.probe_interval, lan.probe_interval),
            probe_timeout: either(self.probe_timeout, lan.probe_timeout),
            indirect_checks: either(self.indirect_checks, lan.indirect_checks),
            retransmit_mult: short(self.retransmit_mult, lan.retransmit_mult),
            suspicion_mult: short(self.suspicion_mult, lan.suspicion_mult),
            suspicion_max_timeout_mult: short(
                self.suspicion_max_timeout_mult,
                lan.suspicion_max_timeout_mult,
            ),
            push_pull_interval: either(self.push_pull_interval, lan.push_pull_interval),
            awareness_max_multiplier: short(
                self.awareness_max_multiplier,
                lan.awareness_max_multiplier,
            ),
            gossip_interval: either(self.gossip_interval, lan.gossip_interval),
            gossip_nodes: either(self.gossip_nodes, lan.gossip_nodes),
            gossip_to_the_dead_time: either(
                self.gossip_to_the_dead_time,
                lan.gossip_to_the_dead_time,
            ),
            udp_buffer_size: short(self.udp_buffer_size, lan.udp_buffer_size),
            enable_compression: !self.is_uncompressed,
            tcp_timeout: either(self.tcp_timeout, lan.tcp_timeout),
            reconnect_interval: either(self.reconnect_interval, lan.reconnect_interval),
            reconnect_timeout: either(self.reconnect_timeout, lan.reconnect_timeout),
            is_silent: self.is_silent,
        }
    }
}

/// The value, or the default one if it is 0.
fn either(value: u32, default: u32) -> u32
    ensures { result ≡ or_default value default }
{
    if value == 0 { default } else { value }
}

/// The same of a small one.
fn short(value: u16, default: u16) -> u16
    ensures { result ≡ or_default value default }
{
    if value == 0 { default } else { value }
}

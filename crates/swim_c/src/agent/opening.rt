//! An agent from its parts.

ghost use Rattle.std.specs.Prelude.{◌≡◌, ◌≢◌, IfErr, IfOk};
ghost use Rattle.swim_c.specs.AgentOpening.{IsNoAgent, IsNoCover, agent_number, config_of, no_seed};
ghost use Rattle.swim_c.specs.Opening.{told};
ghost use Rattle.swim_c.specs.declared.agent.opening.AgentFault.TheVariants as no_agent;

use crate::agent::fault::config_status;
use crate::agent::held::HeldAgent;
use crate::agent::keys::copied;
use crate::agent::settings::AgentSettings;
use crate::cluster_keys::ClusterKeys;
use crate::opening::{self, OpenFault, Parts};
use crate::status::{CIPHER_TOO_LONG, MEMORY, NO_SEED};
use memberlist_member::{ConfigFault, Cover, Identity, Member, Settings};
use rand_chacha::ChaCha20Rng;
use rand_core::SeedableRng;
use std::alloc::{AllocError, Global};

/// How an agent begins, besides what it says about itself.
#[derive(Clone, Copy)]
pub struct Beginning {
    /// Its first incarnation.
    pub inc: u32,
    pub settings: AgentSettings,
    /// The seed of its generator, of which no byte has to be, but not all are, 0.
    pub seed: [u8; 32],
    pub now: u64,
}

/// Why no agent was made.
#[derive(Drop)]
pub enum AgentFault {
    Own(OpenFault),
    LabelTooLong,
    Config(ConfigFault),
    /// All bytes of the seed are 0: it was never drawn.
    NoSeed,
    Memory,
}

impl From<AllocError> for AgentFault {
    ghost from_gives = { λ _ made. made ≡ no_agent.Memory };

    fn from(_error: AllocError) -> AgentFault {
        AgentFault::Memory
    }
}

impl From<OpenFault> for AgentFault {
    ghost from_gives = { λ fault made. made ≡ no_agent.Own fault };

    fn from(fault: OpenFault) -> AgentFault {
        AgentFault::Own(fault)
    }
}

impl AgentFault {
    pub fn number(&self) -> u32
        ensures { result ≡ agent_number self.now }
    {
        match self {
            AgentFault::Own(fault) => fault.number(),
            AgentFault::LabelTooLong => CIPHER_TOO_LONG,
            AgentFault::Config(fault) => config_status(*fault),
            AgentFault::NoSeed => NO_SEED,
            AgentFault::Memory => MEMORY,
        }
    }
}

/// An agent which knows nobody. A seed that was never drawn is refused first, then what the member
/// says about itself, its label, and its settings.
pub fn open(
    alloc: Global,
    own: Parts,
    label: &[u8],
    keys: &ClusterKeys,
    beginning: &Beginning,
) -> Result<Box<HeldAgent>, AgentFault>
    ensures streams { IfOk result (λ held. held.value.accepted ≡ 0) }
    ensures seed { IfOk result (λ _. beginning.entry.now.seed ≢ no_seed) }
    ensures refused { IfErr result (λ fault. IsNoAgent own.entry.name.now
        (told own.entry.addr.now own.entry.port own.entry.meta.now own.entry.vsn.now) label.now
        (config_of beginning.entry.now.settings) beginning.entry.now.seed (agent_number fault)) }
{
    if beginning.seed == [0; 32] {
        return Err(AgentFault::NoSeed);
    }
    let (name, details) = opening::copied(alloc, own)?;
    let cover = cover_of(alloc, label, keys)?;
    let settings = match Settings::new(beginning.settings.config()) {
        Ok(settings) => settings,
        Err(fault) => return Err(AgentFault::Config(fault)),
    };
    let identity = Identity {
        name,
        inc: beginning.inc,
        details,
    };
    let mut rng = ChaCha20Rng::from_seed(beginning.seed);
    let member = Member::new(alloc, settings, cover, identity, beginning.now, &mut rng)?;
    Ok(HeldAgent::boxed(alloc, member, rng)?)
}

/// These keys, and this label.
fn cover_of(alloc: Global, label: &[u8], keys: &ClusterKeys) -> Result<Cover, AgentFault>
    ensures cover { IfOk result (λ cover. cover ≡ record {
      keys = keys.now.keyring;
      clear = keys.now.clear;
      label = cover.label;
    }) }
    ensures label { IfOk result (λ cover. cover.label.items ≡ label.now) }
    ensures refused { IfErr result (IsNoCover label.now) }
{
    let mut cover = Cover::none(alloc);
    if !cover.set_label(label.to_vec(alloc)?) {
        return Err(AgentFault::LabelTooLong);
    }
    cover.keys = copied(alloc, &keys.keyring)?;
    cover.clear = keys.clear;
    Ok(cover)
}

//! Following the probes of members.

use crate::arguments::chosen::{Chosen, Verb};
use crate::heard::noted::{Change, Noted, Notes, What};
use crate::heard::warnings::Pinged;
use crate::listening::setting::Setting;
use crate::shown::agent_log::{AgentLog, write_log_objects, write_logs};
use crate::shown::health::{write_health, write_health_objects};
use crate::shown::probes::{Shown, write_pair_objects, write_pairs};
use crate::shown::why::objects::write_chapter_objects;
use crate::shown::why::{Teller, write_chapter};
use crate::text::window::Window;
use crate::text::written::Text;
use memberlist_causes::{Causes, Kind, News};
use memberlist_message::Message;
use memberlist_probes::{Accusation, Detector, Observed, Sighting, Span, Timing};
use memberlist_view::Event;
use std::alloc::{AllocError, Global};
use swim_claim::Claim;

/// What the failure detectors did, and why members were suspected, as far as that is asked for.
#[derive(Drop)]
pub(crate) struct Detecting {
    alloc: Global,
    /// The time that is shown.
    window: Window,
    detector: Option<Detector>,
    causes: Option<Causes>,
    /// The logs of agents, which are held against the captures.
    logs: Vec<AgentLog>,
    /// What was told and not printed yet.
    pub(crate) out: Text,
}

/// What a report shows of it.
#[derive(Drop)]
pub(crate) struct Detected {
    /// The objects of the pairs.
    pub(crate) probes: String,
    /// The objects of what was told of suspicions.
    pub(crate) episodes: String,
}

/// The detector that is asked for, if one is.
fn detector_of(alloc: Global, chosen: &Chosen, window: &Window) -> Option<Detector> {
    if !chosen.verb.detects() {
        return None;
    }
    let probing = &chosen.probing;
    let timing = Timing::new(alloc, probing.timeout, probing.interval);
    let span = Span {
        from: window.from.unwrap_or(0),
        to: window.until.unwrap_or(u64::MAX),
    };
    Some(Detector::new(alloc, timing, span))
}

/// What tells why members were suspected, if that is asked for.
fn causes_of(alloc: Global, chosen: &Chosen) -> Option<Causes> {
    if chosen.verb.finds_causes() {
        Some(Causes::new(alloc))
    } else {
        None
    }
}

/// What an event says about a suspicion, if it says something.
fn kind_of(event: Event) -> Option<Kind> {
    match event {
        Event::Suspected | Event::AlsoSuspected => Some(Kind::Suspected),
        Event::Dead => Some(Kind::Dead),
        Event::Refuted | Event::Renewed | Event::Updated | Event::Back => Some(Kind::Alive),
        Event::Left => Some(Kind::Left),
        Event::Joined | Event::Known | Event::Seen | Event::Conflict => None,
    }
}

impl Detecting {
    /// Nothing was heard yet.
    pub(crate) fn new(alloc: Global, setting: Setting, logs: Vec<AgentLog>) -> Detecting {
        Detecting {
            alloc,
            window: setting.window,
            detector: detector_of(alloc, setting.chosen, &setting.window),
            causes: causes_of(alloc, setting.chosen),
            logs,
            out: Text::new(alloc),
        }
    }

    /// Takes in what a view noted.
    pub(crate) fn take(&mut self, notes: &mut Notes, chosen: &Chosen) -> Result<(), AllocError> {
        if !notes.is_asked() {
            return Ok(());
        }
        for noted in notes.take() {
            for one in &noted {
                self.hear(one, chosen)?;
            }
        }
        Ok(())
    }

    fn hear(&mut self, noted: &Noted, chosen: &Chosen) -> Result<(), AllocError> {
        let packet = Observed {
            seen: Sighting {
                capture: noted.capture,
                time: noted.sent.time,
            },
            from: noted.sent.source,
            to: noted.sent.destination,
        };
        match &noted.what {
            What::Packet => self.packet(packet, chosen),
            What::Messages(messages) => self.messages(packet, messages),
            What::Change(change) => self.change(packet.seen.time, change),
            other => self.other(packet, other),
        }
    }

    /// Takes in that a packet was captured.
    fn packet(&mut self, packet: Observed, chosen: &Chosen) -> Result<(), AllocError> {
        match &mut self.detector {
            Some(detector) => detector.packet(packet)?,
            None => return Ok(()),
        }
        self.take_probes(chosen, false)
    }

    /// Takes in what was captured besides datagrams with messages.
    fn other(&mut self, packet: Observed, what: &What) -> Result<(), AllocError> {
        let Some(detector) = &mut self.detector else {
            return Ok(());
        };
        match (what, &mut self.causes) {
            (What::Refusal { from, to }, causes) => {
                if let Some(causes) = causes {
                    causes.refusal(packet.seen, *from, *to)?;
                }
                detector.packet(packet)?;
                detector.refusal(packet, *from, *to);
                Ok(())
            }
            (What::Segment(segment), causes) => {
                if let Some(causes) = causes {
                    causes.segment(packet, *segment)?;
                }
                detector.segment(packet, *segment)
            }
            (What::Hearsay(name), Some(causes)) => {
                causes.hearsay(packet.seen.time, packet.to, name)
            }
            (What::PushPull, causes) => {
                detector.push_pull(packet.from, packet.to);
                match causes {
                    Some(causes) => causes.stream(packet.seen.time, packet.from, packet.to),
                    None => Ok(()),
                }
            }
            (What::Stream, Some(causes)) => {
                causes.stream(packet.seen.time, packet.from, packet.to)
            }
            _ => Ok(()),
        }
    }

    /// Takes in the messages of a datagram, for what they tell of a probe.
    fn messages(&mut self, packet: Observed, messages: &[Message]) -> Result<(), AllocError> {
        let pinged = Pinged::among(self.alloc, messages)?;
        for message in messages {
            self.message(packet, &pinged, message)?;
        }
        Ok(())
    }

    /// Takes in a message of a datagram with these pings.
    fn message<'m>(
        &mut self,
        packet: Observed,
        pinged: &Pinged<'m>,
        message: &'m Message,
    ) -> Result<(), AllocError> {
        if let Some(causes) = &mut self.causes {
            causes.message(packet, message)?;
        }
        let Some(detector) = &mut self.detector else {
            return Ok(());
        };
        detector.message(packet, message)?;
        let Message::Claim(claiming) = message else {
            return Ok(());
        };
        for log in &mut self.logs {
            log.claim(self.alloc, packet.seen.time, claiming)?;
        }
        match claiming.claim() {
            Claim::Suspect { name, inc } if !pinged.warns(claiming) => {
                let accusation = Accusation {
                    accuser: claiming.from_name(),
                    suspect: name.bytes(),
                    inc: *inc,
                };
                detector.accusation(packet.seen.time, &accusation)
            }
            _ => Ok(()),
        }
    }

    /// Takes in what changed about a member, if a suspicion begins or ends by it.
    fn change(&mut self, time: u64, change: &Change) -> Result<(), AllocError> {
        if let (Some(causes), Some(kind)) = (&mut self.causes, kind_of(change.event)) {
            causes.news(&News {
                time,
                name: &change.name,
                inc: change.inc,
                by: &change.by,
                kind,
            })?;
        }
        match (&mut self.detector, change.event) {
            (Some(detector), Event::Refuted | Event::Renewed | Event::Back) => {
                detector.refutation(&change.name)
            }
            _ => Ok(()),
        }
    }

    /// Takes in the probes that are over, or all that are left, and tells what can be told then.
    fn take_probes(&mut self, chosen: &Chosen, is_end: bool) -> Result<(), AllocError> {
        let Some(detector) = &mut self.detector else {
            return Ok(());
        };
        for _ in 0..detector.len() {
            let over = if is_end {
                detector.finish()
            } else {
                detector.pop()
            };
            let Some(probe) = over else {
                break;
            };
            let (captures, timing, now) = (detector.captures(), detector.timing(), detector.now());
            for log in &mut self.logs {
                log.probe(self.alloc, &probe, captures, timing, now)?;
            }
            if let Some(causes) = &mut self.causes {
                causes.probe(&probe, captures, timing, now)?;
            }
            if chosen.verb.counts_probes() {
                detector.note(&probe)?;
            }
        }
        self.tell_causes(chosen, is_end)
    }

    /// Tells what can be told of suspicions, or all that is left.
    fn tell_causes(&mut self, chosen: &Chosen, is_end: bool) -> Result<(), AllocError> {
        let (Some(detector), Some(causes)) = (&self.detector, &mut self.causes) else {
            return Ok(());
        };
        let (captures, timing) = (detector.captures(), detector.timing());
        for _ in 0..u64::MAX {
            let chapter = if is_end {
                causes.finish(captures, timing)?
            } else {
                causes.told(detector.settled(), captures, timing)?
            };
            let Some(chapter) = chapter else {
                break;
            };
            let teller = Teller {
                members: causes.members(),
                only: &chosen.member,
                window: &self.window,
                timeout: causes.timeout(),
            };
            if chosen.verb.gathers() || chosen.json {
                write_chapter_objects(self.alloc, &mut self.out, teller, &chapter);
            } else {
                write_chapter(&mut self.out, teller, &chapter);
            }
        }
        Ok(())
    }

    /// Takes in the probes that are left, and shows what is shown only at the end.
    pub(crate) fn finish(&mut self, chosen: &Chosen) -> Result<(), AllocError> {
        self.take_probes(chosen, true)?;
        match chosen.verb {
            Verb::Probes => self.show_probes(chosen),
            Verb::Health => self.show_health(chosen),
            Verb::Why => self.show_logs(chosen),
            _ => {}
        }
        Ok(())
    }

    /// What a report shows, when all is taken in.
    pub(crate) fn detected(&self, chosen: &Chosen) -> Result<Detected, AllocError> {
        let mut probes = Text::new(self.alloc);
        if let Some(detector) = &self.detector {
            write_pair_objects(self.alloc, &mut probes, &detector.pairs, shown_by(chosen));
        }
        Ok(Detected {
            probes: probes.end()?,
            episodes: String::from_str(self.alloc, self.out.as_str()?)?,
        })
    }

    /// Shows what became of the probes of each prober.
    fn show_probes(&mut self, chosen: &Chosen) {
        let shown = shown_by(chosen);
        let Some(detector) = &self.detector else {
            return;
        };
        if chosen.json {
            write_pair_objects(self.alloc, &mut self.out, &detector.pairs, shown);
        } else {
            write_pairs(self.alloc, &mut self.out, &detector.pairs, shown);
        }
    }

    /// Shows how healthy each member is.
    fn show_health(&mut self, chosen: &Chosen) {
        let Some(detector) = &self.detector else {
            return;
        };
        let (healths, member) = (&detector.healths, &chosen.member);
        if chosen.json {
            write_health_objects(self.alloc, &mut self.out, healths, member);
        } else {
            write_health(self.alloc, &mut self.out, healths, member);
        }
    }

    /// Shows what the logs of agents say beside what was told.
    fn show_logs(&mut self, chosen: &Chosen) {
        if chosen.json {
            write_log_objects(self.alloc, &mut self.out, &self.logs);
        } else {
            write_logs(&mut self.out, &self.logs);
        }
    }
}

/// Which pairs are shown.
fn shown_by(chosen: &Chosen) -> Shown {
    Shown {
        prober: &chosen.probing.prober,
        target: &chosen.probing.target,
    }
}

//! Episodes, and trouble without an accusation.

pub(crate) const EPISODES: &str = r##"
/** The members that an episode is about. */
const namesOf = (episode) => (episode.name === undefined ? episode.of : [episode.name]);

/** How an episode ended, in words. */
function endText(episode) {
  if (episode.until !== undefined) return `until ${clock(episode.until)}, nobody was accused`;
  const ends = [];
  const { dead, refuted } = episode;
  if (dead) {
    const by = dead.by ? ` by ${dead.by}` : '';
    ends.push(`declared dead${by} after ${between(episode.time, dead.time)}`);
  }
  if (refuted) {
    const after = between(episode.time, refuted.time);
    ends.push(`refuted at incarnation ${refuted.incarnation} after ${after}`);
  }
  return ends.length === 0 ? 'without an end in the captures' : ends.join(', ');
}

/** The moment at which an episode ended. */
function endOf(episode) {
  const ends = [episode.until, episode.dead?.time, episode.refuted?.time];
  const last = ends.filter((end) => end !== undefined).sort().pop();
  return last ?? about.last;
}

/** What an episode is, in one line. */
function makeSummary(episode) {
  const isTrouble = episode.name === undefined;
  const what = isTrouble ? 'trouble' : `suspected at incarnation ${episode.incarnation}`;
  return make('summary', {},
    makeTime(episode.time), ' ',
    make('b', {}, namesOf(episode).join(', ')), ` ${what}, ${endText(episode)} `,
    make('span', { class: 'cause' }, episode.cause ?? 'cause unknown'));
}

/** The cause of an episode, whose it is, and its evidence. */
function makeCause(episode) {
  const whose = episode.cause && episode.of?.length ? `, of ${episode.of.join(', ')}` : '';
  const cause = make('p', {}, `Cause: ${episode.cause ?? 'unknown'}${whose}`);
  const evidence = (episode.evidence ?? []).map((text) => make('li', {}, text));
  return [cause, make('ul', {}, ...evidence)];
}

/** When a member accused the one of an episode; a text if it did not. */
function accusedAt(episode, by) {
  const accuser = episode.accusers.find((other) => other.by === by);
  return accuser ? makeTime(accuser.time) : 'did not accuse';
}

/** What became of the members that a prober asked to probe in its place. */
function askedText({ asked = [], nacks = [], reached = [] }) {
  const fates = asked.map((name) => {
    if (reached.includes(name)) return `${name} reached it`;
    return nacks.includes(name) ? `${name} did not reach it` : `${name} said nothing`;
  });
  return fates.join(', ');
}

/** A row for a probe. */
const probeRow = (episode, probe) => [
  probe.by, accusedAt(episode, probe.by), makeTime(probe.time), String(probe.seq), probe.outcome,
  (probe.maybe ?? []).join(' or '), askedText(probe),
];

/** The accusers of an episode and their probes; accusers without a probe have a row, too. */
function makeAccusers(episode) {
  const probes = episode.probes ?? [];
  const heads = ['By', 'Accused', 'Probe at', 'Number', 'Outcome', 'Maybe', 'Asked'];
  const without = episode.accusers.filter(({ by }) => !probes.some((probe) => probe.by === by));
  const rows = [
    ...probes.map((probe) => probeRow(episode, probe)),
    ...without.map(({ by, time }) => [by, makeTime(time), '-', '-', 'no probe seen', '', '']),
  ];
  const table = makeTable('Who accused, and by which probe', heads, rows);
  return make('div', { class: 'wide' }, table);
}

/** An episode, of which one line is shown until it is opened. */
function makeEpisode(episode) {
  const details = make('details', { class: 'episode' }, makeSummary(episode));
  details.append(...makeCause(episode));
  if (episode.accusers !== undefined) details.append(makeAccusers(episode));
  return details;
}

function showEpisodes() {
  const list = byId('episode-list');
  list.append(...episodes.map(makeEpisode));
  if (episodes.length === 0) list.append(make('p', {}, 'No episodes are told.'));
}
"##;

//! What a cell of the matrix measures: a share or a time, in classes.

pub(crate) const MEASURES: &str = r##"
/** How many probes of a pair are decided, which those are not that the captures' end cut off. */
const decidedOf = (pair) => pair.probes - pair.open;

/** The share of a pair's probes without an answer in time, in percent, if any is decided. */
function missedShare(pair) {
  const decided = decidedOf(pair);
  return decided === 0 ? undefined : (100 * (decided - pair.answered)) / decided;
}

/** The share of a pair's probes without an answer in time, rounded, but never to none or all. */
function shareText(pair) {
  const share = missedShare(pair);
  if (share === 0 || share === 100) return String(share);
  return String(Math.min(Math.max(Math.round(share), 1), 99));
}

/** What a cell can show. A cell's class is the number of limits that are below its value. */
const MEASURES = {
  missed: {
    words: 'share without an answer in time, in percent',
    valueOf: missedShare,
    textOf: shareText,
    limits: [0, 10, 25, 50, 99.999],
    names: ['none', 'up to 10 %', 'up to 25 %', 'up to 50 %', 'more than 50 %', 'all'],
  },
  trip: {
    words: 'median round trip, in milliseconds',
    valueOf: (pair) => pair.rtt_us?.p50,
    textOf: (pair) => (pair.rtt_us.p50 / 1000).toFixed(pair.rtt_us.p50 < 10000 ? 1 : 0),
    limits: [1e3, 5e3, 20e3, 100e3, 500e3],
    names: ['up to 1 ms', 'up to 5 ms', 'up to 20 ms', 'up to 100 ms', 'up to 500 ms', 'longer'],
  },
};

/** The class of a value, from 0 for the best to 5. */
const classOf = (measure, value) => measure.limits.filter((limit) => value > limit).length;

/** From this number of explanations on, they tell nothing. */
const MANY_EXPLANATIONS = 5;

/** The numbers of a pair, in words. */
function pairText(pair) {
  const counts = [
    ['answered in time', pair.answered], ['late', pair.late], ['through others', pair.indirect],
    ['over TCP', pair.tcp], ['failed', pair.failed], ['cut off by the end', pair.open],
  ].filter(([, number]) => number > 0).map(([words, number]) => `${number} ${words}`);
  const parts = [`${pair.from} to ${pair.to}: ${counted(pair.probes, 'probe')}`];
  if (counts.length > 0) parts[0] += `: ${counts.join(', ')}`;
  if (decidedOf(pair) > 0) parts.push(`${shareText(pair)} % without an answer in time`);
  if (pair.rtt_us) parts.push(tripText(pair.rtt_us));
  const telling = pair.maybe.filter(({ of }) => of.length < MANY_EXPLANATIONS);
  parts.push(...telling.map(({ of, probes }) => `${probes} without an answer: ${of.join(' or ')}`));
  return parts.join('; ');
}

/** Round trips, in words. */
const tripText = ({ p50, p90, max }) => `round trip ${millisText(p50)} in the middle, `
  + `${millisText(p90)} for nine of ten, ${millisText(max)} at most`;
"##;

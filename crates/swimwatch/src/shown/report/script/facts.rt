//! The data, and how times and shares are written.

pub(crate) const FACTS: &str = r##"
/** The objects of a block of data. */
const objectsOf = (id) => JSON.parse(byId(id).textContent);

const [about] = objectsOf('about');
const members = objectsOf('members');
const episodes = objectsOf('why');
const pairs = objectsOf('probes');
const events = objectsOf('timeline');

const DATE_LENGTH = 'YYYY-MM-DD'.length;
const isOfOneDay = about.first !== undefined
  && about.first.slice(0, DATE_LENGTH) === about.last.slice(0, DATE_LENGTH);

/** A moment as it is shown: 02:01:43.010456, with its date if the captures have several. */
function clock(moment) {
  const whole = moment.replace('T', ' ').replace('Z', '');
  return isOfOneDay ? whole.slice(DATE_LENGTH + 1) : whole;
}

/** Microseconds since the start of 1970. */
function microsOf(moment) {
  const millis = Date.parse(`${moment.slice(0, 23)}Z`);
  return millis * 1000 + Number(moment.slice(23, 26));
}

/** How long it is from one moment to another: 24.2 s. */
function between(from, to) {
  const seconds = (microsOf(to) - microsOf(from)) / 1e6;
  if (seconds < 120) return `${seconds.toFixed(1)} s`;
  return `${Math.floor(seconds / 60)} min ${Math.round(seconds % 60)} s`;
}

/** Microseconds in milliseconds: 0.3 ms. */
const millisText = (micros) => `${(micros / 1000).toFixed(1)} ms`;

/** A number of things: 1 member, 2 members. */
const counted = (number, noun) => `${number} ${noun}${number === 1 ? '' : 's'}`;

/** The values of a list that are in it for the first time, in their order. */
const distinct = (values) => [...new Set(values)];

/** The word for a member's state. */
const stateOf = (member) => (member.overdue ? 'overdue' : member.state);

const addressOf = (object) => {
  if (object.address === undefined) return '';
  const host = object.address.includes(':') ? `[${object.address}]` : object.address;
  return `${host}:${object.port}`;
};

/** Tags, or metadata that has none, as one text. */
function tagsOf(object) {
  if (!object.tags) return object.meta ?? '';
  return Object.entries(object.tags).map(([key, value]) => `${key}=${value}`).join(', ');
}
"##;

//! What changed, and filters.

pub(crate) const TIMELINE: &str = r##"
/** How many events are shown at once. */
const EVENTS_AT_ONCE = 500;

/** How many events are shown at most. */
let eventLimit = EVENTS_AT_ONCE;

/** What an event or a query is called, when, and what it carries. */
const newsOf = (event) => [
  event.user_event ?? event.query, event.payload_text ?? event.payload ?? '', event.ltime,
].filter((text) => text !== '').join(' ');

/** Who answered a query. */
const answersOf = (event) => `${counted(event.acks.length, 'ack')}, `
  + `${counted(event.answers.length, 'answer')}`;

/** The addresses of a conflict, or the address and the tags, or who said so, or what Serf said. */
function detailsOf(event) {
  switch (event.event) {
    case 'joined': case 'known': case 'seen': case 'back': case 'updated':
      return [addressOf(event), tagsOf(event)].filter((text) => text !== '').join(' ');
    case 'conflict':
      return `${addressOf(event.rival)}, and is at ${addressOf(event)}`;
    case 'warned': return `by ${event.by}`;
    case 'leaving': case 'forced to leave': case 'stays':
      return `intent ${event.intent}${event.pruned ? ', pruned' : ''}`
        + (event.by ? ` by ${event.by}` : '');
    case 'left': return event.intent === undefined ? '' : `intent ${event.intent}`;
    case 'event': case 'query':
      return newsOf(event) + (event.by ? ` by ${event.by}` : '');
    case 'query ended': case 'query open': return `${newsOf(event)}: ${answersOf(event)}`;
    case 'suspected': case 'also suspected': case 'dead':
      return event.by?.length ? `by ${event.by.join(', ')}` : '';
    default: return '';
  }
}

/** The texts of an event's row. */
const textsOf = (event) => [
  event.time, event.name ?? '-', event.event, String(event.incarnation ?? '-'), detailsOf(event),
  event.from === undefined ? '-' : `${event.from} to ${event.to}, ${event.proto}`,
];

/** What the filter for text searches, for each event. */
const searched = events.map((event) => textsOf(event).join(' ').toLowerCase());

/** The events that the filters let through. */
function filtered() {
  const member = byId('filter-member').value;
  const words = byId('filter-text').value.toLowerCase().split(/\s+/);
  return events.filter((event, index) => (member === '' || (event.name ?? '-') === member)
    && words.every((word) => searched[index].includes(word)));
}

/** A row for an event. */
function eventRow(event) {
  const [, name, what, ...others] = textsOf(event);
  return [makeTime(event.time), name, make('span', { class: `event ${what}-event` }, what),
    ...others];
}

/** Shows the first of the events that the filters let through. */
function showEvents() {
  const found = filtered();
  const shown = found.slice(0, eventLimit);
  const heads = ['Time', 'Member', 'Event', 'Incarnation', 'Details', 'Sent'];
  byId('events').replaceChildren(makeTable('What changed', heads, shown.map(eventRow)));
  write(byId('shown-events'), `${found.length} of ${counted(events.length, 'event')}`);
  const left = found.length - shown.length;
  byId('more-events').hidden = left === 0;
  write(byId('more-events'), `Show ${Math.min(left, EVENTS_AT_ONCE)} more of ${left}`);
}

/** Shows the events that the filters now let through, from the first one. */
function filterEvents() {
  eventLimit = EVENTS_AT_ONCE;
  showEvents();
}

/** Shows what changed about a member, and goes there. */
function showTimelineOf(name) {
  byId('filter-member').value = name;
  byId('filter-text').value = '';
  filterEvents();
  byId('part-timeline').scrollIntoView();
  byId('filter-member').focus({ preventScroll: true });
}

function showTimeline() {
  const names = distinct(events.map((event) => event.name ?? '-')).sort();
  byId('filter-member').append(...names.map((name) => make('option', { value: name }, name)));
  byId('filter-member').addEventListener('change', filterEvents);
  byId('filter-text').addEventListener('input', filterEvents);
  byId('filter').addEventListener('submit', (event) => event.preventDefault());
  byId('more-events').addEventListener('click', () => {
    eventLimit += EVENTS_AT_ONCE;
    showEvents();
  });
  showEvents();
}
"##;

//! The chart: going through its bars, and choosing one.

pub(crate) const BARS: &str = r##"
const TIME = String.raw`(?:\d{4}-\d\d-\d\d )?\d\d:\d\d:\d\d\.\d{6}`;
const BAR_TIMES = new RegExp(` from (${TIME}) to (${TIME})(?: by .*)?$`);
const MARK_TIME = new RegExp(`, (${TIME})$`);

/** How much later than an episode's end a death or a mark may be drawn, in microseconds. */
const LATER = 1e6;

/** The bars and marks of each row of the chart, from left to right. */
let barRows = [];

/** The bar or mark that Tab goes to. */
let current;

/** The text that the chart has for a bar, a mark or a name. */
const titleOf = (shape) => shape.querySelector('title').textContent;

/** A moment that the chart shows, in full. */
function momentOf(time) {
  const hasDate = time.length > 'HH:MM:SS.ffffff'.length;
  const dated = hasDate ? time : `${about.first.slice(0, DATE_LENGTH)} ${time}`;
  return `${dated.replace(' ', 'T')}Z`;
}

/** From when to when a bar is, or a mark. */
function timesOf(shape) {
  const title = titleOf(shape);
  const [, since, until = since] = title.match(BAR_TIMES) ?? title.match(MARK_TIME);
  return [momentOf(since), momentOf(until)];
}

/** A name as the chart shows it: each byte that is not ASCII is a question mark. */
function asDrawn(name) {
  const bytes = [...new TextEncoder().encode(name)];
  return bytes.map((byte) => (byte < 0x7f ? String.fromCharCode(byte) : '?')).join('');
}

/** Whether an episode is of the time of a bar or a mark. A death and a mark are at the end of an
    episode, and may be drawn a little later. */
function isOfTime(episode, shape) {
  const [since, until] = timesOf(shape).map(microsOf);
  const [begin, end] = [episode.time, endOf(episode)].map(microsOf);
  const later = shape.matches('.dead, .mark') ? LATER : 0;
  return begin === since || (begin < until && since < end + later);
}

/** Whether an episode is of a row's member, and of the time of a bar or a mark in it. */
function belongs(episode, shape) {
  const drawn = titleOf(shape.parentNode);
  const names = [...namesOf(episode), ...(episode.of ?? [])];
  return names.some((name) => asDrawn(name) === drawn) && isOfTime(episode, shape);
}

/** Shows the episodes that a bar or a mark belongs to. */
function choose(shape) {
  document.querySelector('#chart [aria-pressed=true]')?.setAttribute('aria-pressed', false);
  shape.setAttribute('aria-pressed', true);
  const own = episodes.filter((episode) => belongs(episode, shape));
  const count = own.length === 0 ? 'no episode' : counted(own.length, 'episode');
  write(byId('chosen-bar'), `${titleOf(shape)}: ${count}`);
  const shown = own.map(makeEpisode);
  for (const details of shown) details.open = true;
  byId('chosen-episodes').replaceChildren(...shown);
  offerTimeline(titleOf(shape.parentNode));
  byId('chosen').hidden = false;
  keepInSight(shape);
}

/** Scrolls until a bar or a mark is not behind the episodes of the chosen one. */
function keepInSight(shape) {
  const panel = byId('chosen');
  if (panel.hidden) return;
  const isBehind = shape.getBoundingClientRect().bottom > panel.getBoundingClientRect().top;
  if (isBehind) shape.scrollIntoView({ block: 'center' });
}

/** Offers the timeline of the member with this name in the chart. */
function offerTimeline(drawn) {
  const button = byId('chosen-timeline');
  const name = distinct(events.map((event) => event.name)).find((each) => asDrawn(each) === drawn);
  button.hidden = name === undefined;
  write(button, `Timeline of ${name}`);
  button.onclick = () => showTimelineOf(name);
}

/** Hides the episodes of the chosen bar, and goes back to it. */
function closeChosen() {
  byId('chosen').hidden = true;
  goTo(current);
}

/** Makes a bar or a mark the one that Tab goes to, and goes to it. */
function moveTo(shape) {
  current.tabIndex = -1;
  current = shape;
  current.tabIndex = 0;
  goTo(current);
  keepInSight(current);
}

/** The bar or mark of a row that is nearest to another one. */
function nearest(row, shape) {
  const middle = (each) => each.getBBox().x + each.getBBox().width / 2;
  const away = (each) => Math.abs(middle(each) - middle(shape));
  return row.reduce((best, each) => (away(each) < away(best) ? each : best));
}

/** The bar or mark to which a key leads, if it leads to one. */
function shapeAt(key) {
  const y = barRows.findIndex((row) => row.includes(current));
  const x = barRows[y].indexOf(current);
  switch (key) {
    case 'ArrowLeft': return barRows[y][x - 1];
    case 'ArrowRight': return barRows[y][x + 1];
    case 'ArrowUp': return barRows[y - 1] && nearest(barRows[y - 1], current);
    case 'ArrowDown': return barRows[y + 1] && nearest(barRows[y + 1], current);
    case 'Home': return barRows[y][0];
    case 'End': return barRows[y].at(-1);
    default: return undefined;
  }
}

function onBarKey(event) {
  const next = shapeAt(event.key);
  if (next) moveTo(next);
  const isChoice = event.key === 'Enter' || event.key === ' ';
  if (isChoice) choose(current);
  if (next || isChoice) event.preventDefault();
}

/** The bars and marks of a row, each made a button. */
function openRow(group) {
  const shapes = [...group.querySelectorAll('rect, path')];
  for (const shape of shapes) {
    const attributes = { role: 'button', tabindex: -1, 'aria-label': titleOf(shape) };
    for (const [name, value] of Object.entries(attributes)) shape.setAttribute(name, value);
    shape.addEventListener('click', () => { moveTo(shape); choose(shape); });
  }
  const left = (shape) => shape.getBBox().x;
  return shapes.sort((a, b) => left(a) - left(b));
}

/** Lets bars and marks be reached and chosen. */
function openBars() {
  const svg = document.querySelector('#chart svg');
  barRows = [...svg.querySelectorAll('g')].map(openRow).filter((row) => row.length > 0);
  byId('chart-hint').hidden = barRows.length === 0;
  if (barRows.length === 0) return;
  svg.setAttribute('role', 'group');
  svg.setAttribute('aria-label', titleOf(svg));
  [[current]] = barRows;
  current.tabIndex = 0;
  svg.addEventListener('keydown', onBarKey);
  byId('chosen-close').addEventListener('click', closeChosen);
}
"##;

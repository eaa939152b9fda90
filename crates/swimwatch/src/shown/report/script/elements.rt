//! New elements.

pub(crate) const ELEMENTS: &str = r##"
const byId = (id) => document.getElementById(id);

/** A text without characters that hide or turn what is around them: they are shown as %XX. */
const visible = (text) => text.replace(/[\p{Cc}\p{DI}\p{Zl}\p{Zp}]/gu, encodeURIComponent);

/** Makes a text all that is in an element. */
function write(element, text) {
  element.textContent = visible(text);
}

/** A new element. Its children are elements and texts. */
function make(tag, attributes = {}, ...children) {
  const element = document.createElement(tag);
  for (const [name, value] of Object.entries(attributes)) element.setAttribute(name, value);
  element.append(...children.map((child) => (child instanceof Node ? child : visible(child))));
  return element;
}

/** A row of a table, with a cell for each text or element. The first one heads the row. */
function makeRow([head, ...cells]) {
  const row = make('tr', {}, make('th', { scope: 'row' }, head));
  row.append(...cells.map((cell) => make('td', {}, cell)));
  return row;
}

/** A table with a caption for screen readers, column heads and rows of texts or elements. */
function makeTable(caption, heads, rows) {
  const head = make('tr', {}, ...heads.map((word) => make('th', { scope: 'col' }, word)));
  return make('table', {},
    make('caption', {}, caption),
    make('thead', {}, head),
    make('tbody', {}, ...rows.map(makeRow)));
}

/** A moment of the captures, without its date if they are all of one day. */
function makeTime(moment) {
  return make('time', { datetime: moment, title: moment }, clock(moment));
}

/** The word for a member's state, behind a sample of its colour. */
function makeState(member) {
  return make('span', { class: `state ${member.state}-state` }, stateOf(member));
}

/** Goes to an element, and lets the keyboard go on from there. */
function goTo(element) {
  element.scrollIntoView({ block: 'nearest' });
  element.focus();
}
"##;

//! The probes of all pairs: a row for each prober, a column for each target.

pub(crate) const MATRIX: &str = r##"
/** From this number of members on, a cell shows the digit of its class in place of its value. */
const MANY_MEMBERS = 31;

/** The members that probe or are probed, in the order of their names. */
const probing = distinct(pairs.flatMap((pair) => [pair.from, pair.to])).sort();
const isDense = probing.length >= MANY_MEMBERS;
const pairOf = new Map(pairs.map((pair) => [`${pair.from} ${pair.to}`, pair]));

/** The cells, by row and column. */
let cells = [];

/** The cell that Tab goes to. */
let cursor;

/** The probers and targets of a cell. */
const endsOf = (cell) => [probing[cell.parentNode.rowIndex - 1], probing[cell.cellIndex - 1]];

/** What is known about the pair of a cell, in words. */
function cellText(cell) {
  const [from, to] = endsOf(cell);
  const pair = pairOf.get(`${from} ${to}`);
  if (pair) return pairText(pair);
  return from === to ? from : `${from} to ${to}: no probes`;
}

/** Fills a cell with the value of its pair. */
function fill(cell, measure) {
  const pair = pairOf.get(endsOf(cell).join(' '));
  const value = pair && measure.valueOf(pair);
  if (value === undefined) {
    cell.className = 'no-value';
    write(cell, '-');
    return;
  }
  const level = classOf(measure, value);
  cell.className = `level-${level}`;
  const digit = level === 0 ? '' : String(level);
  write(cell, isDense ? digit : measure.textOf(pair));
}

/** What each class means, with its colour and digit. */
function showScale(measure) {
  const items = measure.names.map((name, level) => {
    const digit = isDense && level > 0 ? String(level) : '';
    return make('li', {}, make('span', { class: `sample level-${level}` }, digit), ` ${name}`);
  });
  const none = make('li', {}, make('span', { class: 'sample no-value' }, '-'), ' no value');
  byId('scale').replaceChildren(...items, none);
}

/** Shows a measure in all cells. */
function showMeasure(measure) {
  showScale(measure);
  for (const cell of cells.flat()) fill(cell, measure);
}

/** Tells a cell's numbers, and marks its row and column. */
function tell(cell) {
  const text = cellText(cell);
  cell.title = text;
  cell.setAttribute('aria-label', text);
  write(byId('pair'), text);
  for (const head of document.querySelectorAll('#matrix .lit')) head.classList.remove('lit');
  cell.parentNode.cells[0].classList.add('lit');
  document.querySelector('#matrix thead tr').cells[cell.cellIndex].classList.add('lit');
}

/** The cell to which a key leads, if it leads to one. */
function cellAt(key) {
  const y = cursor.parentNode.rowIndex - 1;
  const x = cursor.cellIndex - 1;
  switch (key) {
    case 'ArrowLeft': return cells[y][x - 1];
    case 'ArrowRight': return cells[y][x + 1];
    case 'ArrowUp': return cells[y - 1]?.[x];
    case 'ArrowDown': return cells[y + 1]?.[x];
    case 'Home': return cells[y][0];
    case 'End': return cells[y].at(-1);
    default: return undefined;
  }
}

/** Makes a cell the one that Tab goes to. */
function setCursor(cell) {
  cursor.tabIndex = -1;
  cursor = cell;
  cursor.tabIndex = 0;
}

function onCellKey(event) {
  const next = cellAt(event.key);
  if (!next) return;
  event.preventDefault();
  setCursor(next);
  tell(next);
  goTo(next);
}

/** Does something with the cell that an event is about, if it is about one. */
const withCell = (act) => ({ target }) => {
  const cell = target.closest('td');
  if (cell) act(cell);
};

/** The matrix, without values. */
function makeMatrix() {
  const heads = ['from \\ to', ...probing].map((name) => make('span', {}, name));
  const table = makeTable('Probes', heads, probing.map((name) => [name, ...probing.map(() => '')]));
  table.setAttribute('role', 'grid');
  table.setAttribute('aria-label', 'Probes: a row for each prober, a column for each target');
  if (isDense) table.className = 'dense';
  table.addEventListener('keydown', onCellKey);
  table.addEventListener('mouseover', withCell(tell));
  table.addEventListener('focusin', withCell(tell));
  table.addEventListener('click', withCell((cell) => { setCursor(cell); goTo(cell); }));
  return table;
}

/** The choice of a measure. */
function makeChoice([key, measure]) {
  const input = make('input', { type: 'radio', name: 'measure', value: key });
  input.addEventListener('change', () => showMeasure(measure));
  return make('label', {}, input, ` ${measure.words}`);
}

function showMatrix() {
  if (pairs.length === 0) {
    byId('measures').hidden = true;
    write(byId('pair'), 'No probes were seen.');
    return;
  }
  const table = makeMatrix();
  cells = [...table.tBodies[0].rows].map((row) => [...row.cells].slice(1));
  for (const cell of cells.flat()) cell.tabIndex = -1;
  [[cursor]] = cells;
  cursor.tabIndex = 0;
  byId('matrix').append(table);
  byId('measures').append(...Object.entries(MEASURES).map(makeChoice));
  byId('measures').querySelector('input').checked = true;
  showMeasure(MEASURES.missed);
}
"##;

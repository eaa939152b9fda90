//! What was captured, and the members at the end.

pub(crate) const MEMBERS: &str = r##"
/** How many members a table shows without being opened. */
const FEW_MEMBERS = 30;

/** What was captured, in a list of terms. */
function showFacts() {
  const facts = [
    ['Members', stateCounts()],
    ['Episodes', episodes.length === 0 ? 'none' : String(episodes.length)],
    ['Changes', String(events.length)],
    [counted(about.captures.length, 'capture'), captureText()],
    ['Read', about.read],
  ];
  for (const [term, text] of facts) {
    byId('facts').append(make('dt', {}, term), make('dd', {}, text));
  }
  if (about.first === undefined) return;
  const until = isOfOneDay ? clock(about.last) : about.last;
  const span = between(about.first, about.last);
  const first = about.first.replace('T', ' ').replace('Z', '');
  write(byId('period'), `${first} to ${until} UTC (${span})`);
  document.title = `Cluster report, ${about.first.slice(0, 16).replace('T', ' ')}`;
}

/** How many members are in each state: 4 alive, 1 dead. */
function stateCounts() {
  const states = members.map(stateOf);
  const counts = distinct(states).map((state) => {
    const number = states.filter((other) => other === state).length;
    return `${number} ${state}`;
  });
  return counts.length === 0 ? 'none' : `${members.length}: ${counts.join(', ')}`;
}

/** The captures' names, and whose view they show. */
function captureText() {
  const names = about.captures.join(', ');
  if (about.captures.length === 1) return names;
  return `${names}. They are one view: what a member would show that hears all of them. If they `
    + 'are of members that were cut off from each other, no member believed that: write a report '
    + 'for each side.';
}

/** The members at the end of the captures. */
function showMembers() {
  const heads = ['Member', 'State', 'Incarnation', 'Since', 'Address', 'By', 'Tags'];
  const rows = members.map((member) => [
    member.name, makeState(member), String(member.incarnation ?? '-'), makeTime(member.since),
    addressOf(member), (member.by ?? []).join(', '), tagsOf(member),
  ]);
  const table = makeTable('Members at the end of the captures', heads, rows);
  const summary = make('summary', {}, `${counted(members.length, 'member')} at the end`);
  const details = make('details', {}, summary, make('div', { class: 'wide' }, table));
  details.open = members.length <= FEW_MEMBERS;
  byId('member-table').append(details);
}
"##;

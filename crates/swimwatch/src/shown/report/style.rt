//! How the page looks. The colours of states are the chart's.
//!
//! The levels of the matrix go from light to dark, or from dark to light on a dark page, so that
//! they can be told apart in grey.

pub(crate) const STYLE: &str = r##"
:root {
  --page: #fff; --text: #1b1b1b; --soft: #555; --line: #d0d0d0; --panel: #f4f4f4; --focus: #0b57d0;
  --level-0: #e8f3ee; --level-1: #fde7c2; --level-2: #fdc27a;
  --level-3: #f58b4c; --level-4: #c23321; --level-5: #76091c;
  --low: #1b1b1b; --high: #fff;
}
@media screen and (prefers-color-scheme: dark) {
  :root {
    --page: #1c1c1c; --text: #e4e4e4; --soft: #b0b0b0; --line: #4a4a4a; --panel: #282828;
    --focus: #8ab4f8;
    --level-0: #15291f; --level-1: #54390c; --level-2: #7d4f0e;
    --level-3: #c9771f; --level-4: #f2977a; --level-5: #ffd9cd;
    --low: #f0f0f0; --high: #111;
  }
}
body {
  max-width: 100rem; margin: 0 auto; padding: 0 1.5rem 3rem;
  background: var(--page); color: var(--text); font: 15px/1.45 system-ui, sans-serif;
}
h1 { margin: 1.2rem 0 0; font-size: 1.6rem; }
h2 { margin: 2.2rem 0 .6rem; font-size: 1.25rem; border-bottom: 1px solid var(--line); }
#period { margin: .2rem 0 .8rem; color: var(--soft); }
nav a { margin-right: 1rem; }
a { color: var(--focus); }
:focus-visible { outline: 3px solid var(--focus); outline-offset: 1px; }
button, select, input { font: inherit; }
dl { display: grid; grid-template-columns: max-content 1fr; gap: .15rem 1.2rem; }
dt { color: var(--soft); }
dd { margin: 0; overflow-wrap: anywhere; }
.wide { overflow-x: auto; }

table { border-collapse: collapse; font-variant-numeric: tabular-nums; }
caption { position: absolute; width: 1px; height: 1px; overflow: hidden; clip-path: inset(50%); }
th { text-align: left; font-weight: 600; }
td, th { padding: .2rem .9rem .2rem 0; vertical-align: top; }
td, tbody th { max-width: 30rem; overflow-wrap: break-word; }
tbody th { min-width: 5.5em; }
#matrix tbody th { min-width: 0; }
tbody tr { border-top: 1px solid var(--line); }
summary { cursor: pointer; padding: .25rem 0; }
time { white-space: nowrap; }

.state::before, .event::before {
  content: ""; display: inline-block; width: .7em; height: .7em; margin-right: .4em;
  border-radius: 2px;
}
.event::before { display: none; }
.event, .state { white-space: nowrap; }
.alive-state::before { background: #009e73; }
.suspect-state::before { background: #e69f00; }
.dead-state::before { background: #d55e00; }
.left-state::before { background: #56b4e9; }
.noted-state::before { border: 1px solid var(--soft); box-sizing: border-box; }
.suspected-event::before, .warned-event::before { display: inline-block; background: #e69f00; }
.dead-event::before { display: inline-block; background: #d55e00; }
.left-event::before { display: inline-block; background: #56b4e9; }

#chart svg { display: block; min-width: 56rem; max-width: 100%; height: auto; }
#chart g > rect, #chart g > path { cursor: pointer; }
#chart [aria-pressed=true] { stroke: var(--text); stroke-width: 2.5; }
#chart :focus-visible { outline: none; stroke: var(--focus); stroke-width: 3.5; }
#chosen {
  position: sticky; bottom: 0; max-height: 45vh; overflow: auto; padding: .2rem 1rem;
  background: var(--panel); border-top: 2px solid var(--soft);
}

.episode { margin: .3rem 0; padding: .1rem .8rem; border-left: 4px solid var(--line); }
.episode[open] { border-left-color: var(--soft); }
.episode ul { margin: .2rem 0 .8rem; }
.episode table { margin-bottom: .6rem; }
.cause { padding: 0 .5em; border: 1px solid var(--soft); border-radius: 3px; white-space: nowrap; }

fieldset { border: 0; margin: 0; padding: 0; }
fieldset label { margin-right: 1.5rem; }
legend { padding: 0; color: var(--soft); }
#scale { display: flex; flex-wrap: wrap; gap: .2rem 1.2rem; padding: 0; list-style: none; }
#scale li { display: flex; gap: .4em; }
.sample {
  width: 1.3em; height: 1.3em; text-align: center; line-height: 1.3;
  border: 1px solid var(--line);
}
#matrix { max-height: 75vh; overflow: auto; }
#matrix table { border-collapse: separate; border-spacing: 1px; font-size: 13px; }
#matrix td {
  min-width: 2.6em; padding: .15rem .2rem; text-align: center; white-space: nowrap;
}
#matrix th { position: sticky; left: 0; padding: 0 .4em; background: var(--page); }
#matrix tbody th {
  max-width: 14rem; overflow: hidden; text-overflow: ellipsis;
  text-align: right; vertical-align: middle; white-space: nowrap; font-weight: normal;
}
#matrix thead th { top: 0; z-index: 1; vertical-align: bottom; font-weight: normal; }
#matrix thead th:first-child { z-index: 2; color: var(--soft); white-space: nowrap; }
#matrix thead th + th span {
  max-height: 12rem; overflow: hidden; text-overflow: ellipsis; white-space: nowrap;
  writing-mode: vertical-rl; transform: rotate(180deg);
}
#matrix .lit { font-weight: bold; background: var(--panel); }
#matrix td:hover, #matrix td:focus { outline: 2px solid var(--focus); outline-offset: 0; }
#matrix .dense { font-size: 10px; line-height: 13px; }
#matrix .dense td { min-width: 13px; width: 13px; height: 13px; padding: 0; }
#matrix .dense thead th + th { padding: 0; }
#pair { min-height: 2.9em; margin: 0; }
.level-0 { background: var(--level-0); color: var(--low); }
.level-1 { background: var(--level-1); color: var(--low); }
.level-2 { background: var(--level-2); color: var(--low); }
.level-3 { background: var(--level-3); color: #1b1b1b; }
.level-4 { background: var(--level-4); color: var(--high); }
.level-5 { background: var(--level-5); color: var(--high); }
.no-value { background: var(--panel); color: var(--soft); }

#filter { display: flex; flex-wrap: wrap; gap: .5rem 1.5rem; align-items: center; }
#events { margin-top: .6rem; }
#events tbody th { font-weight: normal; }

@media print {
  nav, #chart-hint, #chosen, #measures, #pair, #filter, #more-events { display: none; }
  body { max-width: none; padding: 0; font-size: 11px; }
  .wide, #matrix { overflow: visible; max-height: none; }
  .level-0, .level-1, .level-2, .level-3, .level-4, .level-5, svg, .state::before {
    print-color-adjust: exact;
  }
  #chart svg { min-width: 0; }
  tr, .episode { break-inside: avoid; }
}
"##;

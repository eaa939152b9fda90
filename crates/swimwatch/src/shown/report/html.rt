//! What surrounds the picture and the data. The page may load nothing, and without its script it
//! shows the picture.

pub(crate) const BEFORE_STYLE: &str = r##"<!doctype html>
<html lang="en">
<head>
<meta charset="utf-8">
<meta http-equiv="Content-Security-Policy" content="default-src 'none';
script-src 'unsafe-inline'; style-src 'unsafe-inline'; base-uri 'none'; form-action 'none'">
<meta name="viewport" content="width=device-width, initial-scale=1">
<meta name="color-scheme" content="light dark">
<title>Cluster report</title>
<style>
"##;

pub(crate) const BEFORE_PICTURE: &str = r##"</style>
</head>
<body>
<header>
<h1>Cluster report</h1>
<p id="period"></p>
<nav aria-label="Parts of the report" hidden data-built>
<a href="#part-members">Members</a>
<a href="#part-chart">Chart</a>
<a href="#part-episodes">Episodes</a>
<a href="#part-probes">Probes</a>
<a href="#part-timeline">Timeline</a>
</nav>
</header>
<noscript><p>Without JavaScript this page shows the chart alone.</p></noscript>
<main>
<section id="part-members" aria-labelledby="head-members" hidden data-built>
<h2 id="head-members">Members</h2>
<dl id="facts"></dl>
<div id="member-table"></div>
</section>
<section id="part-chart" aria-labelledby="head-chart">
<h2 id="head-chart">Chart</h2>
<p id="chart-hint" hidden data-built>Choose a bar to see the episodes that it belongs to: click it,
or go to it with Tab and the arrow keys and press Enter.</p>
<div id="chart" class="wide">
"##;

pub(crate) const AFTER_PICTURE: &str = r##"</div>
<div id="chosen" hidden>
<p id="chosen-bar" role="status"></p>
<div id="chosen-episodes"></div>
<p><button type="button" id="chosen-timeline"></button>
<button type="button" id="chosen-close">Close</button></p>
</div>
</section>
<section id="part-episodes" aria-labelledby="head-episodes" hidden data-built>
<h2 id="head-episodes">Episodes</h2>
<p>From the first accusation of a member to its death, its refutation or the end of the captures;
and trouble for which nobody was accused.</p>
<div id="episode-list"></div>
</section>
<section id="part-probes" aria-labelledby="head-probes" hidden data-built>
<h2 id="head-probes">Probes</h2>
<fieldset id="measures">
<legend>Each cell shows, for the probes by its row's member of its column's member</legend>
</fieldset>
<ul id="scale" aria-label="What the colours and digits of cells mean"></ul>
<p id="pair">Point at a cell, or go to one with Tab and the arrow keys, to read its
numbers.</p>
<div id="matrix" class="wide"></div>
</section>
<section id="part-timeline" aria-labelledby="head-timeline" hidden data-built>
<h2 id="head-timeline">Timeline</h2>
<form id="filter" role="search">
<label>Member <select id="filter-member"><option value="">all</option></select></label>
<label>Text <input type="search" id="filter-text" placeholder="dead web-5" size="28"></label>
<span id="shown-events" role="status"></span>
</form>
<div id="events" class="wide"></div>
<p><button type="button" id="more-events" hidden></button></p>
</section>
</main>
"##;

pub(crate) const END: &str = r##"</body>
</html>
"##;

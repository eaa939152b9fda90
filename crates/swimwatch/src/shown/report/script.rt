//! What the page does. Names and all other data become text and attributes, and never markup.
//!
//! | module | subject |
//! |---|---|
//! | `elements` | new elements |
//! | `facts` | the data, and how times and shares are written |
//! | `members` | what was captured, and the members at the end |
//! | `episodes` | episodes, and trouble without an accusation |
//! | `bars` | the chart: going through its bars, and choosing one |
//! | `measures` | what a cell of the matrix measures |
//! | `matrix` | the probes of all pairs |
//! | `timeline` | what changed, and filters |

mod bars;
mod elements;
mod episodes;
mod facts;
mod matrix;
mod measures;
mod members;
mod timeline;

/// The script in its parts.
pub(crate) const SCRIPT: [&str; 10] = [
    "<script type=\"module\">\n",
    elements::ELEMENTS,
    facts::FACTS,
    members::MEMBERS,
    episodes::EPISODES,
    bars::BARS,
    measures::MEASURES,
    matrix::MATRIX,
    timeline::TIMELINE,
    START,
];

/// Builds the page.
const START: &str = r##"
for (const element of document.querySelectorAll('[data-built]')) element.hidden = false;
showFacts();
showMembers();
showEpisodes();
openBars();
showMatrix();
showTimeline();
addEventListener('beforeprint', () => {
  for (const details of document.querySelectorAll('details')) details.open = true;
});
</script>
"##;

//! Colours, patterns and shapes. The colours are those of Okabe and Ito, which colour-blind people
//! can distinguish. Each also has a pattern, so that it can be distinguished in grey.

use memberlist_view::Event;

/// Rules for light and dark backgrounds, and the patterns.
pub(crate) const STYLE: &str = "\
<style>
text{font:12px sans-serif;fill:#222}
.title{font-size:16px;font-weight:bold}
.name{text-anchor:end}
.tick{font-size:11px;text-anchor:middle}
.page{fill:#fff}
.grid{stroke:#ddd}
.alive{fill:#009e73}
.suspect{fill:url(#suspect)}
.dead{fill:url(#dead)}
.left{fill:url(#left)}
.mark{fill:#fff;stroke:#000;stroke-width:1.2}
@media (prefers-color-scheme:dark){
text{fill:#ddd}
.page{fill:#1c1c1c}
.grid{stroke:#444}
}
</style>
<defs>
<pattern id=\"suspect\" width=\"6\" height=\"6\" patternUnits=\"userSpaceOnUse\">\
<rect width=\"6\" height=\"6\" fill=\"#e69f00\"/>\
<path d=\"M-1 1L1-1M0 6L6 0M5 7L7 5\" stroke=\"#000\"/></pattern>
<pattern id=\"dead\" width=\"8\" height=\"8\" patternUnits=\"userSpaceOnUse\">\
<rect width=\"8\" height=\"8\" fill=\"#d55e00\"/>\
<path d=\"M0 0L8 8M8 0L0 8\" stroke=\"#000\" stroke-width=\".8\"/></pattern>
<pattern id=\"left\" width=\"6\" height=\"6\" patternUnits=\"userSpaceOnUse\">\
<rect width=\"6\" height=\"6\" fill=\"#56b4e9\"/>\
<circle cx=\"3\" cy=\"3\" r=\"1.2\"/></pattern>
</defs>
";

/// The states in the legend: the words for them, and how many pixels from the left they are.
pub(crate) const STATES: [(&str, u64); 4] = [
    ("alive", 16),
    ("suspect", 96),
    ("dead", 192),
    ("left", 272),
];

/// The marks in the legend, in the same way.
pub(crate) const MARKS: [(Event, u64); 3] = [
    (Event::Conflict, 352),
    (Event::Refuted, 448),
    (Event::Back, 544),
];

/// The shape of a mark, as a path from its centre.
pub(crate) fn shape(event: Event) -> &'static str {
    match event {
        // a diamond
        Event::Conflict => "m0-5l5 5l-5 5l-5-5z",
        // a circle
        Event::Refuted => "m-4 0a4 4 0 1 0 8 0a4 4 0 1 0-8 0z",
        // a triangle that points up
        _ => "m0-5l5 9h-10z",
    }
}

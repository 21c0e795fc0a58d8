//! The markup of the page, all that there is: a text from outside stands in none of it.
ghost use Rattle.std.specs.Prelude.{◌≡◌};
ghost use Rattle.catalog_page.specs.Fragments.{fragment_text};

/// What stands before the heading: the head of the document with its style, without a script and without an
/// address.
pub const HEAD: &str = "<!DOCTYPE html>\n\
<html lang=\"en\">\n\
<head>\n\
<meta charset=\"utf-8\">\n\
<meta name=\"viewport\" content=\"width=device-width, initial-scale=1\">\n\
<title>Nectar: the catalogue</title>\n\
<style>\n\
:root { color-scheme: light dark; --ink: #1c1b19; --soft: #5c5850; --paper: #fbfaf7; --line: #d9d4c8; --whole: #e4dfd2; --part: #b4690e; }\n\
@media (prefers-color-scheme: dark) { :root { --ink: #ece8df; --soft: #aaa498; --paper: #191816; --line: #3b3833; --whole: #3b3833; --part: #e8a33d; } }\n\
* { box-sizing: border-box; }\n\
body { margin: 0; background: var(--paper); color: var(--ink); font: 1rem/1.5 system-ui, sans-serif; }\n\
main { max-width: 88rem; margin: 0 auto; padding: 1rem; }\n\
h1 { font-size: 1.5rem; margin: 0.5rem 0; }\n\
h2 { font-size: 1.15rem; margin: 2rem 0 0.5rem; }\n\
.scroll { overflow-x: auto; }\n\
table { border-collapse: collapse; width: 100%; }\n\
caption { text-align: left; color: var(--soft); padding-bottom: 0.5rem; }\n\
th, td { text-align: left; vertical-align: top; padding: 0.4rem 0.7rem 0.4rem 0; border-top: 1px solid var(--line); }\n\
thead th { border-top: 0; color: var(--soft); font-weight: 600; white-space: nowrap; }\n\
td { font-variant-numeric: tabular-nums; }\n\
code { font: 0.9rem/1.4 ui-monospace, monospace; overflow-wrap: anywhere; display: inline-block; min-width: 12rem; max-width: 36rem; }\n\
.column { white-space: nowrap; margin-right: 0.6rem; }\n\
.by { color: var(--soft); }\n\
.cut { min-width: 9rem; }\n\
svg { display: block; width: 100%; height: 0.6rem; margin-bottom: 0.3rem; }\n\
.whole { fill: var(--whole); }\n\
.part { fill: var(--part); }\n\
@media (max-width: 44rem) {\n\
thead { position: absolute; width: 1px; height: 1px; overflow: hidden; clip-path: inset(50%); }\n\
table, caption, tbody, tr, th, td { display: block; }\n\
tr { border-top: 1px solid var(--line); padding: 0.5rem 0; }\n\
th, td { border: 0; padding: 0.1rem 0; }\n\
td { position: relative; padding-left: 7.5rem; }\n\
td::before { content: attr(data-label); position: absolute; left: 0; color: var(--soft); }\n\
code { min-width: 0; }\n\
}\n\
</style>\n\
</head>\n\
<body>\n\
<main>\n\
";

/// The table of streams, up to its rows.
pub const STREAMS: &str =
    "</h1>\n<section><h2>Streams</h2>\n<div class=\"scroll\" role=\"region\" aria-labelledby=\"streams\" tabindex=\"0\"><table role=\"table\">\n<caption id=\"streams\">The streams in the order of making. A stream has the bytes of each kept result that reads it.</caption>\n<thead role=\"rowgroup\"><tr role=\"row\"><th role=\"columnheader\" scope=\"col\">Stream</th><th role=\"columnheader\" scope=\"col\">Columns</th><th role=\"columnheader\" scope=\"col\">Extents</th><th role=\"columnheader\" scope=\"col\">Rows</th><th role=\"columnheader\" scope=\"col\">Bytes kept</th></tr></thead>\n<tbody role=\"rowgroup\">\n";

/// The end of a table, and the table of programs up to its rows.
pub const PROGRAMS: &str =
    "</tbody></table></div></section>\n<section><h2>Programs</h2>\n<div class=\"scroll\" role=\"region\" aria-labelledby=\"programs\" tabindex=\"0\"><table role=\"table\">\n<caption id=\"programs\">The stored programs by name. A program has the bytes of each kept result of its plan.</caption>\n<thead role=\"rowgroup\"><tr role=\"row\"><th role=\"columnheader\" scope=\"col\">Program</th><th role=\"columnheader\" scope=\"col\">Plan</th><th role=\"columnheader\" scope=\"col\">Bytes kept</th></tr></thead>\n<tbody role=\"rowgroup\">\n";

/// The end of a table, and the table of kept results up to its rows.
pub const RESULTS: &str =
    "</tbody></table></div></section>\n<section><h2>Kept results</h2>\n<div class=\"scroll\" role=\"region\" aria-labelledby=\"results\" tabindex=\"0\"><table role=\"table\">\n<caption id=\"results\">The kept results in the order in which a collection at the next tick takes them, leases and jobs aside. Extents are those from the first number on and below the second; ages are in ticks.</caption>\n<thead role=\"rowgroup\"><tr role=\"row\"><th role=\"columnheader\" scope=\"col\">Place</th><th role=\"columnheader\" scope=\"col\">Id</th><th role=\"columnheader\" scope=\"col\">Plan</th><th role=\"columnheader\" scope=\"col\">Extents</th><th role=\"columnheader\" scope=\"col\">Bytes</th><th role=\"columnheader\" scope=\"col\">Machine time</th><th role=\"columnheader\" scope=\"col\">Uses</th><th role=\"columnheader\" scope=\"col\">Since use</th><th role=\"columnheader\" scope=\"col\">Since making</th></tr></thead>\n<tbody role=\"rowgroup\">\n";

/// What stands before a key.
pub const NO_PROGRAM: &str = "<span class=\"by\">no program has this plan, whose key is</span> ";

/// A bar, up to its width.
pub const BAR: &str =
    "</span><svg aria-hidden=\"true\" preserveAspectRatio=\"none\" viewBox=\"0 0 ";

/// A piece of markup of the page.
#[derive(Clone, Copy)]
pub enum Fragment {
    /// The head of the document.
    Head,
    /// The heading, up to the tick.
    Tick,
    /// The table of streams, up to its rows.
    Streams,
    /// The end of a table, and the table of programs up to its rows.
    Programs,
    /// The end of a table, and the table of kept results up to its rows.
    Results,
    /// The end of a table and of the page.
    Foot,
    /// A row, up to what its head shows.
    Row,
    /// The end of a row.
    RowEnd,
    /// The cell of a stream's columns.
    Columns,
    /// The cell of a program's plan.
    ProgramPlan,
    /// The cell of a result's id.
    Id,
    /// The cell of the extents.
    Extents,
    /// The cell of a stream's rows.
    Rows,
    /// The cell of the bytes of all results.
    BytesKept,
    /// The cell of a result's plan.
    Plan,
    /// The cell of a result's bytes.
    Bytes,
    /// The cell of the machine time.
    Machine,
    /// The cell of the uses.
    Uses,
    /// The cell of the ticks since the last use.
    SinceUse,
    /// The cell of the ticks since the making.
    SinceMaking,
    /// A column of a stream.
    Column,
    /// A space.
    Space,
    /// The end of a column or of a name.
    SpanEnd,
    /// The text of a plan, or a key.
    Code,
    /// Its end.
    CodeEnd,
    /// The name of a program, behind its text.
    By,
    /// That no program has this plan.
    NoProgram,
    /// The extents of a leaf, up to the stream.
    Cut,
    /// Between the first extent and the end.
    To,
    /// Behind the end, before the number of all.
    Of,
    /// The bar, up to its width.
    Bar,
    /// All extents, up to the width.
    BarWhole,
    /// Those of the cut, up to where they begin.
    BarPart,
    /// Up to their width.
    BarWidth,
    /// The end of a bar.
    BarEnd,
}

impl Fragment {
    /// Its text.
    #[tactic(auto, unfolding(crate::specs::Fragments::fragment_text))]
    pub fn text(&self) -> &'static str
        ensures { result.now ≡ fragment_text self.now }
    {
        match self {
            Fragment::Head => HEAD,
            Fragment::Tick => "<h1>The catalogue at tick ",
            Fragment::Streams => STREAMS,
            Fragment::Programs => PROGRAMS,
            Fragment::Results => RESULTS,
            Fragment::Foot => "</tbody></table></div></section>\n</main>\n</body>\n</html>\n",
            Fragment::Row => "<tr role=\"row\"><th role=\"rowheader\" scope=\"row\">",
            Fragment::RowEnd => "</td></tr>\n",
            Fragment::Columns => "</th><td role=\"cell\" data-label=\"Columns\">",
            Fragment::ProgramPlan => "</th><td role=\"cell\" data-label=\"Plan\">",
            Fragment::Id => "</th><td role=\"cell\" data-label=\"Id\">",
            Fragment::Extents => "</td><td role=\"cell\" data-label=\"Extents\">",
            Fragment::Rows => "</td><td role=\"cell\" data-label=\"Rows\">",
            Fragment::BytesKept => "</td><td role=\"cell\" data-label=\"Bytes kept\">",
            Fragment::Plan => "</td><td role=\"cell\" data-label=\"Plan\">",
            Fragment::Bytes => "</td><td role=\"cell\" data-label=\"Bytes\">",
            Fragment::Machine => "</td><td role=\"cell\" data-label=\"Machine time\">",
            Fragment::Uses => "</td><td role=\"cell\" data-label=\"Uses\">",
            Fragment::SinceUse => "</td><td role=\"cell\" data-label=\"Since use\">",
            Fragment::SinceMaking => "</td><td role=\"cell\" data-label=\"Since making\">",
            Fragment::Column => "<span class=\"column\">",
            Fragment::Space => " ",
            Fragment::SpanEnd => "</span> ",
            Fragment::Code => "<code>",
            Fragment::CodeEnd => "</code>",
            Fragment::By => " <span class=\"by\">program ",
            Fragment::NoProgram => NO_PROGRAM,
            Fragment::Cut => "<div class=\"cut\"><span>",
            Fragment::To => " to ",
            Fragment::Of => " of ",
            Fragment::Bar => BAR,
            Fragment::BarWhole => " 1\"><rect class=\"whole\" height=\"1\" width=\"",
            Fragment::BarPart => "\"/><rect class=\"part\" height=\"1\" x=\"",
            Fragment::BarWidth => "\" width=\"",
            Fragment::BarEnd => "\"/></svg></div>",
        }
    }
}

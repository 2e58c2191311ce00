// What is the same in every page: what opens it, and its style sheet.
ghost use Rattle.std.specs.Prelude.{◌≡◌};
ghost use Rattle.bt_chart.specs.Fixed.{opening_text, style_text};

/// What opens a page, up to what its head says of this one. The text is HTML, and XML too.
pub const OPENING: &str = "\
<!DOCTYPE html>
<html lang='en' xmlns='http://www.w3.org/1999/xhtml'>
<head>
<meta charset='utf-8'/>
<meta name='viewport' content='width=device-width, initial-scale=1'/>
";

/// The style sheet, and what opens the body.
pub const STYLE: &str = "\
<style>
:root{color-scheme:light dark;--paper:#fff;--ink:#111;--quiet:#555;--rule:#bbb;--used:#0b63b5;--room:#d8dee6;--alarm:#b00020}
@media (prefers-color-scheme:dark){:root{--paper:#10151a;--ink:#f2f4f6;--quiet:#b9c1ca;--rule:#48525c;--used:#6db3f2;--room:#2d363f;--alarm:#ff8a80}}
html{background:var(--paper);color:var(--ink);font:clamp(16px,1.6vw,36px)/1.3 sans-serif}
body{margin:0;padding:.8rem}
h1{font-size:clamp(1.8rem,6vw,5rem);line-height:1.1;margin:0 0 .4rem}
h1 span{color:var(--quiet)}
h2{font-size:1.2rem;margin:1.4rem 0 .4rem;border-bottom:1px solid var(--rule)}
h3{font-size:1rem;margin:.8rem 0 .3rem}
dl{display:grid;grid-template-columns:repeat(auto-fit,minmax(8.5rem,1fr));gap:.5rem 1rem;margin:0}
dt{color:var(--quiet)}
dd{margin:0;font-size:1.5rem;font-weight:bold;font-variant-numeric:tabular-nums}
.wide{grid-column:span 2}
.alarm dd{color:var(--alarm)}
table{border-collapse:collapse;width:100%;font-variant-numeric:tabular-nums}
th,td{text-align:left;padding:.15rem .5rem .15rem 0;font-weight:normal}
tbody th{overflow-wrap:anywhere}
thead th{color:var(--quiet)}thead th:nth-child(n+4){text-align:right}
tbody tr:nth-child(odd){border-top:1px solid var(--rule)}
td.wide{width:60%}
.number{text-align:right;font-weight:bold}
.bar{display:block;width:100%;min-width:4rem;height:1em}
.room{fill:var(--room)}.used{fill:var(--used)}
.plan{background:#fff;overflow-x:auto}
.plan:focus-visible{outline:.2rem solid var(--used)}
.plan svg{display:block;width:100%;min-width:50rem;height:auto}
ol,ul{margin:0;padding:0 0 0 2.5rem}
ul{list-style:none;padding:0;columns:11rem;font-variant-numeric:tabular-nums}
li{break-inside:avoid}
@media print{html{font-size:10pt}:root{--paper:#fff;--ink:#000;--quiet:#333;--rule:#999;--used:#000;--room:#ddd;--alarm:#000}.plan svg{min-width:0}section{break-inside:avoid-page}}
</style>
</head>
<body>
<main>
";

/// What opens a page.
pub(crate) fn opening() -> &'static str
    ensures { result.now ≡ opening_text }
{
    OPENING
}

/// The style sheet.
pub(crate) fn style() -> &'static str
    ensures { result.now ≡ style_text }
{
    STYLE
}

//! The part that is the same on every page.

/// The most processes of which there is a table.
pub(crate) const MOST_PROCESSES: usize = 64;

/// The word for what all assertions share.
pub(crate) const SHARED_WORD: &[u8] = b"shared";

/// Up to the name of the text.
pub(crate) const START: &[u8] = b"<!DOCTYPE html>
<html lang=en>
<head>
<meta charset=utf-8>
<meta name=viewport content='width=device-width, initial-scale=1'>
<title>";

/// Between the name of the text in the title and in the heading.
pub(crate) const BEFORE_NAME: &[u8] = b"</title>
<style>
:root{color-scheme:light dark;--page:#fff;--text:#1c2127;--faint:#5b6470;--rule:#d3d9e0;--soft:#f5f7f9;--good:#17603a;--bad:#a3161b;--badtext:#fff;--pale:#fbe6e6;--open:#ffdf8c;--opentext:#3d2c00;--maybe:#7a5200;--link:#0a4fa8}
@media(prefers-color-scheme:dark){:root{--page:#14181d;--text:#e3e7ec;--faint:#9aa4b0;--rule:#343c46;--soft:#1d232a;--good:#86dca6;--bad:#ff9d94;--badtext:#330603;--pale:#3d1d1f;--open:#5e4a0c;--opentext:#ffebb0;--maybe:#f0c75e;--link:#8cbcff}}
*{box-sizing:border-box}
html{scroll-padding:1rem}
body{margin:0 auto;max-width:100rem;padding:1.5rem;background:var(--page);color:var(--text);font:1rem/1.55 system-ui,sans-serif}
h1{font-size:1.5rem;line-height:1.2;margin:0 0 .5rem;overflow-wrap:anywhere}
h2{font-size:1.15rem;margin:0 0 .5rem}
h3{font-size:1rem;margin:0 0 .5rem}
p,ul{max-width:46rem;margin:.5rem 0}
.verdict{font-size:1.125rem;font-weight:600;margin:0 0 1rem}
a[href]{color:var(--link)}
a:focus-visible,input:focus-visible,pre:focus-visible,.wide:focus-visible{outline:3px solid var(--link);outline-offset:2px}
pre,code{font:.875rem/1.6 ui-monospace,Consolas,monospace}
pre{margin:0}
.totals{display:flex;flex-wrap:wrap;gap:.5rem;margin:0 0 1rem;padding:0;list-style:none}
.totals li{border:1px solid var(--rule);border-radius:.375rem;padding:.25rem .75rem;min-width:6rem;color:var(--faint);font-size:.875rem}
.totals b{display:block;color:var(--text);font-size:1.25rem;font-variant-numeric:tabular-nums}
.totals .yes{color:var(--good)}
.totals .no{color:var(--bad)}
.key{list-style:none;padding:0;font-size:.875rem}
.key{margin-top:1rem}
.key li{margin:.25rem 0}
main{display:grid;gap:2rem;margin-top:1.5rem}
section{min-width:0}
.source{white-space:pre-wrap;overflow-wrap:anywhere;padding:.75rem 1rem .75rem 0;background:var(--soft);border:1px solid var(--rule);border-radius:.375rem;tab-size:4}
.source code{display:block;padding-left:8ch}
.n{display:inline-block;width:5ch;margin:0 3ch 0 -8ch;text-align:right;color:var(--faint);user-select:none}
.n:target{background:var(--link);color:var(--page)}
i{color:var(--faint);font-style:normal}
.ok,.false,.open{border-radius:.2rem;text-decoration:none}
.ok b,.false b,.open b{display:inline-block;width:1.4ch;margin-left:-1.4ch;background:inherit;border-radius:.2rem 0 0 .2rem;line-height:1.2;text-align:center;user-select:none}
.ok{color:var(--good)}
a.false,.key .false{background:var(--bad);color:var(--badtext)}
a.open,.key .open{background:var(--open);color:var(--opentext)}
a.false:has(em),.key .false:has(em){background:var(--pale);color:var(--text)}
.false:has(em) b,em{background:var(--bad);color:var(--badtext)}
em{border-radius:.2rem;font-style:normal}
a.false i,a.open i{color:inherit}
label{cursor:pointer}
pre label{border:1px solid;border-radius:.2rem;padding:0 .5ch;user-select:none}
u{display:none;text-decoration:none}
#shared:checked~pre u{display:inline}
#shared:checked~pre label{margin-right:1ch}
#source:not(:has(u))>input,#source:not(:has(u))>label,#source:not(:has(u)) .folded{display:none}
#source>input{margin:0 .5rem 0 0}
#source>label{display:inline-block;margin:0 0 .75rem}
a.wrong,a.maybe,.wrong,.maybe{color:inherit;text-decoration:underline wavy var(--bad) 2px;text-underline-offset:.2em}
a.maybe,.maybe{text-decoration:underline dotted var(--maybe) 2px}
.key b{margin-left:0!important}
.wide{overflow-x:auto;margin-bottom:2rem}
table{border-collapse:collapse;font-variant-numeric:tabular-nums}
th,td{border:1px solid var(--rule);padding:.2rem .6rem;text-align:center;white-space:nowrap}
th{font-weight:600;background:var(--soft)}
td:empty::after{content:'\xC2\xB7';color:var(--faint)}
td a{display:inline-block;padding:0 .4rem}
.run td{text-align:left}
.run td:empty::after{content:none}
.run .step{background:var(--soft);font:.875rem/1.6 ui-monospace,Consolas,monospace}
.run .faint td{color:var(--faint)}
.run .here td{color:var(--bad);font-weight:600}
p.run{margin:.25rem 0}
article{margin:0 0 1rem;padding:.75rem 1rem;border:1px solid var(--rule);border-left:.375rem solid var(--bad);border-radius:.375rem}
article.open{border-left:.375rem dashed var(--maybe)}
article:target{background:var(--soft);box-shadow:0 0 0 3px var(--link)}
article pre{white-space:pre-wrap;overflow-wrap:anywhere}
@media(min-width:75rem){main{grid-template-columns:3fr 2fr}.source{max-height:max(50vh,calc(100vh - 13rem));overflow:auto}#source{position:sticky;top:1rem;align-self:start}}
@media print{body{padding:0;max-width:none}u{display:inline}label,input{display:none}article{break-inside:avoid}a.false,a.open{border:1px solid}}
</style>
</head>
<body>
<header>
<h1>";

/// Between the name and the verdict.
pub(crate) const BEFORE_VERDICT: &[u8] = b"</h1>
<p class=verdict>verdict: ";

/// Between the verdict and the totals.
pub(crate) const BEFORE_TOTALS: &[u8] = b"</p>
<ul class=totals>
";

/// Between the totals and the source.
pub(crate) const BEFORE_SOURCE: &[u8] = b"</ul>
<p><b>safe: yes</b> says that in every run each assertion is true whenever its process stands there, no value leaves 64 bits, and the program ends only where its postcondition is true. <b>unblocked: yes</b> adds, where it is safe, that the program never gets stuck.</p>
</header>
<main>
<section id=source>
<h2>Source</h2>
<input type=checkbox id=shared><label for=shared>show what all assertions share</label>
<pre class=source tabindex=0><code>";

/// Behind the source.
pub(crate) const AFTER_SOURCE: &[u8] = b"</code></pre>
<ul class=key>
<li><span class=ok><b>&#10003;</b>{assertion}</span> every condition that leads to it is proved
<li><span class=false><b>&#10007;</b>{conjunct and <em>conjunct</em>}</span> false in the state of the block to which it links, where known by its conjuncts
<li><span class=open><b>?</b>{assertion}</span> neither proved nor false, as that block says
<li><span class=wrong>statement</span> a value may be too large, or an assertion of another process may become false; at <code>cobegin</code>: all may wait
<li><span class=maybe>statement</span> a condition that speaks of it is open
<li class=folded><code>shared</code> the conjuncts with which all assertions of the processes begin: press it to see them
</ul>
</section>
<section id=blocks>
";

/// Before the rows of the table.
pub(crate) const BEFORE_TABLE: &[u8] = b"<h2>Interference</h2>
<p>How many conditions are not proved of a step of one process and an assertion of another: &#10007; false, ? open.</p>
<div class=wide tabindex=0>
<table>
";

/// Behind them.
pub(crate) const AFTER_TABLE: &[u8] = b"</table>
</div>
";

/// In place of blocks, where there are none.
pub(crate) const ALL_PROVED: &[u8] = b"<h2>Every condition is proved</h2>
<p><code>og notes</code> prints what the outline claims, and what it does not.</p>
";

/// Before the blocks.
pub(crate) const BEFORE_BLOCKS: &[u8] = b"<h2>What is not proved</h2>
";

/// The end of the page.
pub(crate) const END: &[u8] = b"</section>
</main>
</body>
</html>
";

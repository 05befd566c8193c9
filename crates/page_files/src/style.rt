//! The style sheet of the desk's page.
ghost use Rattle.std.specs.Prelude.{◌≡◌};
ghost use Rattle.page_files.specs.Files.{style_file};

/// The style sheet of the desk's page, whole (docs/manual/page.md).
pub fn desk_style() -> &'static [u8]
    ensures { result.now ≡ style_file }
{
    STYLE
}

/// The style sheet as it is: CSS between the quotes, which has no quote and no backslash.
pub static STYLE: &[u8] =
    b"/* The page of the desk, in light and in dark, from 360 pixels of width on. */

:root {
  --ground: #f3f4f2;
  --panel: #ffffff;
  --ink: #1b1f24;
  --muted: #59626d;
  --line: #d5d9dd;
  --link: #17559b;
  --used: #3d6f9f;
  --free: #eef0f1;
  --marked: #b4540a;
  --pattern: #8d97a2;
  --good: #1e6b3a;
  --bad: #a1261f;
  --good-ground: #eaf4ec;
  --bad-ground: #faeceb;
  --mark: #ffe08a;
  --mark-ink: #1b1f24;
  --mono: ui-monospace, 'Cascadia Mono', 'DejaVu Sans Mono', Menlo, Consolas, monospace;
  color-scheme: light dark;
}

@media (prefers-color-scheme: dark) {
  :root {
    --ground: #14171b;
    --panel: #1b2026;
    --ink: #e4e7ea;
    --muted: #a3acb7;
    --line: #343c46;
    --link: #86b6ee;
    --used: #5c94c9;
    --free: #262d35;
    --marked: #f0a35c;
    --pattern: #77828f;
    --good: #7fcf98;
    --bad: #f09a92;
    --good-ground: #1a2a20;
    --bad-ground: #2f1f1f;
    --mark: #7a5d12;
    --mark-ink: #fff7df;
  }
}

* { box-sizing: border-box; }
[hidden] { display: none; }

body {
  margin: 0;
  background: var(--ground);
  color: var(--ink);
  font: 14px/1.45 system-ui, 'Segoe UI', 'DejaVu Sans', sans-serif;
}

h1, h2, h3, h4, p, dl, dd, pre, ol { margin: 0; }
h1 { font-size: 16px; }
h2 { font-size: 18px; }
h3 { font-size: 15px; margin: 16px 0 6px; }
h4 { font-size: 13px; margin: 8px 0 4px; }
a { color: var(--link); }
code, pre, textarea, kbd, .name, .code-line { font-family: var(--mono); }
:focus-visible { outline: 2px solid var(--link); outline-offset: 1px; }

/* Above all views */

.top {
  display: flex;
  flex-wrap: wrap;
  align-items: center;
  gap: 4px 16px;
  padding: 8px 20px;
  background: var(--panel);
  border-bottom: 1px solid var(--line);
}

nav { display: flex; flex-wrap: wrap; gap: 2px; }

nav a {
  padding: 4px 10px;
  border-radius: 4px;
  color: var(--ink);
  text-decoration: none;
}

nav a:hover { background: var(--free); }
nav a[aria-current] { background: var(--free); font-weight: 600; box-shadow: inset 0 -2px var(--link); }
.standing { margin-left: auto; color: var(--muted); font-size: 13px; }
.standing.good::before, .standing.bad::before {
  content: '';
  display: inline-block;
  width: 9px;
  height: 9px;
  margin-right: 6px;
  border-radius: 50%;
  background: var(--good);
}
.standing.bad { color: var(--bad); }
.standing.bad::before { border-radius: 0; background: var(--bad); }

.gone {
  padding: 8px 20px;
  background: var(--bad-ground);
  color: var(--bad);
  border-bottom: 1px solid var(--bad);
}

main { max-width: 1400px; margin: 0 auto; padding: 12px 20px 40px; }

.bar {
  display: flex;
  flex-wrap: wrap;
  align-items: center;
  gap: 6px 16px;
  margin-bottom: 8px;
}

.total, .muted, .hint { color: var(--muted); }
.hint { font-size: 13px; margin-bottom: 8px; }
.bar .find { margin-left: auto; }
.back { margin-left: auto; }
.note { padding: 6px 10px; margin-bottom: 8px; background: var(--bad-ground); color: var(--bad); border-left: 3px solid var(--bad); }
.empty { padding: 10px 12px; color: var(--muted); border: 1px dashed var(--line); border-radius: 4px; }

/* Forms */

.find { display: flex; flex-wrap: wrap; align-items: center; gap: 4px 10px; }
.find label { display: inline-flex; align-items: center; gap: 6px; }

input, select, textarea, button {
  font: inherit;
  color: var(--ink);
  background: var(--panel);
  border: 1px solid var(--pattern);
  border-radius: 4px;
  padding: 3px 7px;
}

input, select { font-family: var(--mono); font-size: 13px; text-transform: uppercase; min-width: 0; max-width: 100%; }
input::placeholder { color: var(--muted); text-transform: none; }
button { cursor: pointer; }
button:hover:not(:disabled) { border-color: var(--link); }
button:disabled { color: var(--muted); cursor: default; border-style: dashed; }
button.main { background: var(--link); border-color: var(--link); color: var(--panel); }
button.quiet { color: var(--muted); border-color: var(--line); }
.buttons { display: flex; flex-wrap: wrap; gap: 8px; margin: 10px 0 6px; }

.fields { display: grid; grid-template-columns: repeat(auto-fill, minmax(138px, 1fr)); gap: 8px 10px; }
.field { display: grid; gap: 2px; min-width: 0; }
.field span { font-size: 12px; color: var(--muted); }
.field.wide { grid-column: 1 / -1; }
.field input, .field select { width: 100%; }
details { margin-top: 10px; }
summary { cursor: pointer; color: var(--link); margin-bottom: 6px; }

.sides { display: grid; grid-template-columns: minmax(0, 2fr) minmax(0, 3fr); gap: 16px; align-items: start; }
.sides.even { grid-template-columns: minmax(0, 1fr) minmax(0, 1fr); }

.panel { background: var(--panel); border: 1px solid var(--line); border-radius: 6px; padding: 12px; }
.panel + .panel { margin-top: 10px; }
.panel h3:first-child, .panel h4:first-child { margin-top: 0; }
.panel.good { border-left: 4px solid var(--good); background: var(--good-ground); }
.panel.bad { border-left: 4px double var(--bad); background: var(--bad-ground); }
.code-line { font-weight: 600; margin-bottom: 4px; overflow-wrap: anywhere; }
.row { display: flex; flex-wrap: wrap; align-items: center; gap: 6px 14px; margin: 8px 0; }
.pager { display: inline-flex; align-items: center; gap: 8px; }
.lines { white-space: pre-wrap; overflow-wrap: anywhere; font-size: 12.5px; }

/* Pool */

.group { padding: 0; margin-top: 8px; overflow: hidden; }
.group-head { display: block; width: 100%; padding: 9px 12px 10px; border: 0; border-radius: 0; text-align: left; background: none; }
.group-head:hover { background: var(--free); }
.group-head:focus-visible { outline-offset: -3px; }
.facts { display: flex; flex-wrap: wrap; align-items: baseline; gap: 2px 16px; }
.facts .name { font-weight: 600; min-width: 76px; }
.fact { font-size: 13px; font-variant-numeric: tabular-nums; }
.group-head .name::before { content: '+ '; color: var(--muted); }
.group-head[aria-expanded='true'] .name::before { content: '- '; }
.bar-of-group { display: block; width: 100%; height: 20px; margin-top: 5px; }
.bar-free { fill: var(--free); stroke: var(--line); vector-effect: non-scaling-stroke; }
.bar-used { fill: var(--used); }
.bar-used.past { fill: var(--marked); }
.mark.high { fill: var(--ink); }
.mark.low { fill: var(--muted); }

.chip { display: inline-flex; align-items: center; gap: 5px; padding: 0 7px; border: 1px solid var(--line); border-radius: 9px; font-size: 12px; }
.chip.disall, .chip.disnew, .chip.notcon { border-color: var(--bad); }
.swatch { display: inline-block; width: 14px; height: 10px; border: 1px solid var(--pattern); background: var(--free); }
.swatch.used { background: var(--used); }
.enable .swatch { background: var(--good); border-color: var(--good); }
.quiall .swatch, .quinew .swatch, .swatch.quiall { background: radial-gradient(var(--ink) 1px, var(--free) 1.2px) 0 0 / 4px 4px; }
.disall .swatch, .disnew .swatch, .notcon .swatch, .swatch.disall {
  background: repeating-linear-gradient(135deg, var(--ink) 0 1px, var(--free) 1px 4px);
}

.volumes { padding: 0 12px 12px; border-top: 1px solid var(--line); }
.legends { display: inline-flex; flex-wrap: wrap; gap: 4px 14px; margin-left: auto; }
.legend { display: inline-flex; align-items: center; gap: 5px; font-size: 12px; color: var(--muted); }
.volume { padding: 8px 0; border-top: 1px solid var(--line); }
.row + .volume { border-top: 0; }
.strips { display: grid; gap: 4px; margin-top: 4px; }
.strip { display: block; width: 100%; height: 22px; border: 1px solid var(--pattern); border-radius: 2px; cursor: crosshair; touch-action: pan-y; }
.caption { font-size: 12px; color: var(--muted); }
.told { font-size: 12.5px; min-height: 19px; margin-top: 3px; overflow-wrap: anywhere; font-variant-numeric: tabular-nums; }
.told a { font-family: var(--mono); }

/* Tables */

table { width: 100%; border-collapse: collapse; background: var(--panel); border: 1px solid var(--line); }
th, td { padding: 3px 9px; text-align: left; vertical-align: top; border-bottom: 1px solid var(--line); }
th { font-size: 12px; font-weight: 600; color: var(--muted); white-space: nowrap; }
th.name { font-family: inherit; }
.extents { max-width: 720px; }
td { font-family: var(--mono); font-size: 12.5px; overflow-wrap: anywhere; }
@media (min-width: 1180px) {
  .sets { table-layout: fixed; }
  .sets th { width: 9%; }
  .sets th.name { width: 24%; }
  .sets th:nth-child(4) { width: 11.5%; }
  .sets th.figure { width: 6.2%; }
}
th.figure, td.figure { text-align: right; font-variant-numeric: tabular-nums; overflow-wrap: normal; }
tbody tr:hover { background: var(--free); }
tr.refused td.answer { box-shadow: inset 3px 0 var(--bad); }
.change.gone td:nth-child(2)::before { content: '- '; }
.change.new td:nth-child(2)::before { content: '+ '; }
.change.changed td:nth-child(2)::before { content: '~ '; }

.fact-list, .tiles { display: grid; grid-template-columns: repeat(auto-fill, minmax(150px, 1fr)); gap: 10px 16px; }
dt { font-size: 12px; color: var(--muted); }
dd { font-family: var(--mono); overflow-wrap: anywhere; }
.tiles { margin-top: 8px; }
.tile { padding: 6px 9px; border: 1px solid var(--line); border-radius: 4px; }
.tile dd { font-weight: 600; }

/* Decks and routines */

.editor { display: grid; grid-template-columns: auto minmax(0, 1fr); border: 1px solid var(--pattern); border-radius: 4px; overflow: hidden; }
.editor.over { outline: 3px dashed var(--link); }
.editor textarea {
  width: 100%;
  height: 62vh;
  min-height: 260px;
  border: 0;
  border-radius: 0;
  padding: 6px 8px;
  resize: none;
  font: 12.5px/18px var(--mono);
  tab-size: 4;
}
.gutter {
  height: 62vh;
  min-height: 260px;
  overflow: hidden;
  padding: 6px;
  text-align: right;
  font: 12.5px/18px var(--mono);
  color: var(--muted);
  background: var(--free);
}
.fault { margin: 6px 0; font-weight: 600; }
.excerpt, .lines-changed, .source { font-family: var(--mono); font-size: 12.5px; background: var(--panel); border: 1px solid var(--line); border-radius: 4px; padding: 4px 8px 4px 52px; overflow-x: auto; }
.excerpt code, .source code { white-space: pre; }
.excerpt .at-fault { background: var(--bad-ground); box-shadow: inset 3px 0 var(--bad); }
.excerpt .at-fault::marker { color: var(--bad); font-weight: 700; }
mark { background: var(--mark); color: var(--mark-ink); text-decoration: underline wavy var(--bad); }
.lines-changed { list-style: none; padding-left: 8px; }
.lines-changed code { white-space: pre-wrap; }
.lines-changed .gone { background: var(--bad-ground); }
.lines-changed .new { background: var(--good-ground); }
.source li { padding-left: 4px; }
.source li.not code { color: var(--muted); }
.source li.ran { background: var(--good-ground); }
.left-out { list-style: none; padding-left: 4px; color: var(--muted); font-style: italic; }
.sign { display: inline-block; width: 2ch; color: var(--good); font-weight: 700; white-space: pre; }
.happened { display: inline-flex; flex-wrap: wrap; gap: 0 12px; margin-left: 16px; color: var(--good); }
.happened span::before { content: '| '; color: var(--muted); }

/* Questions */

dialog { max-width: min(560px, 92vw); padding: 18px; border: 1px solid var(--pattern); border-radius: 8px; background: var(--panel); color: var(--ink); }
dialog::backdrop { background: rgb(0 0 0 / 45%); }
dialog h2 { margin-bottom: 8px; }
.keys { display: grid; grid-template-columns: auto 1fr; gap: 6px 14px; }
.keys dd { font-family: inherit; }
kbd { padding: 0 5px; border: 1px solid var(--pattern); border-radius: 3px; font-size: 12px; color: var(--ink); }

/* Narrow */

@media (max-width: 760px) {
  .top { padding: 6px 12px; gap: 2px 8px; }
  nav { order: 3; width: 100%; justify-content: space-between; }
  nav a { padding: 4px 6px; font-size: 13px; }
  #keys-button { display: none; }
  .standing { font-size: 12px; }
  main { padding: 10px 12px 32px; }
  .bar .find, .back { margin-left: 0; }
  .sides, .sides.even { grid-template-columns: minmax(0, 1fr); }
  .legends { margin-left: 0; }
  .editor textarea, .gutter { height: 46vh; }
  .happened { display: flex; margin-left: 3ch; }
  .source { padding-left: 40px; }
  .source code { white-space: pre-wrap; overflow-wrap: anywhere; }
}

/* Tables as lists, where their columns have no room */

@media (max-width: 980px) {
  .stacked thead { display: none; }
  .stacked, .stacked tbody { display: block; }
  .stacked tr { display: grid; grid-template-columns: 1fr 1fr; gap: 0 12px; padding: 6px 9px; border-bottom: 1px solid var(--line); }
  .stacked td { display: block; padding: 0; border: 0; text-align: left; }
  .stacked td::before { content: attr(data-title) ' '; font: 11px system-ui, 'DejaVu Sans', sans-serif; color: var(--muted); }
  .stacked td.none { display: none; }
  .stacked td.name, .stacked td.answer { grid-column: 1 / -1; }
  .stacked td.name::before, .stacked td.answer::before { content: none; }
  .stacked .change td:first-child { grid-column: 1 / -1; }
  tr.refused td.answer { padding-left: 8px; }
}
";

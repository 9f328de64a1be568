//! How the page looks.

/// The style of the page, but for that of its drawings.
pub(crate) const PAGE_STYLE: &str = "<style>
:root { color-scheme: light dark; --page: #ffffff; --ink: #1b2026; --soft: #5b6670; --line: #d5dbe0;
  --stripe: rgba(70, 90, 110, .07) }
@media (prefers-color-scheme: dark) { :root { --page: #14171a; --ink: #e4e8eb; --soft: #a2adb7; --line: #363e46;
  --stripe: rgba(190, 210, 230, .07) } }
body { margin: 0; background: var(--page); color: var(--ink); font: 16px/1.5 system-ui, 'Segoe UI', Roboto, sans-serif }
main { max-width: 62rem; margin: 0 auto; padding: 1rem 1.25rem 3rem }
h1 { font-size: 1.7rem; line-height: 1.25; margin: 1rem 0 .75rem }
h2 { font-size: 1.2rem; margin: 2.25rem 0 .5rem; break-after: avoid }
p { margin: .5rem 0; max-width: 46rem }
dl { display: flex; flex-wrap: wrap; gap: .75rem 2.5rem; margin: 1rem 0 }
dl div { min-width: 6rem }
dt { color: var(--soft); font-size: .85rem }
dd { margin: 0; font-size: 1.45rem; font-variant-numeric: tabular-nums }
.wide { overflow-x: auto }
table { border-collapse: collapse; width: 100%; font-size: .92rem; font-variant-numeric: tabular-nums }
th, td { padding: .3rem .6rem; border-bottom: 1px solid var(--line); text-align: right; white-space: nowrap;
  vertical-align: top }
th { font-weight: 600 }
tbody th { font-weight: 400; text-align: left; white-space: normal; overflow-wrap: anywhere; min-width: 9rem }
th:first-child, .left { text-align: left }
td.left { white-space: normal; min-width: 5rem }
td.left:last-child { min-width: 9rem; width: 30% }
tbody th + td.left:last-child { width: 60%; overflow-wrap: anywhere }
tbody td:first-child { width: 3rem }
thead th { color: var(--soft); vertical-align: bottom }
tbody tr:nth-child(even) { background: var(--stripe) }
tr.critical th { font-weight: 600 }
tr { break-inside: avoid }
figure { margin: 0 0 .75rem; overflow-x: auto; break-inside: avoid }
svg { display: block; width: 100%; min-width: 54rem; height: auto }
pre { background: var(--stripe); padding: .75rem 1rem; overflow-x: auto; font-size: .9rem }
@page { size: A4; margin: 14mm 12mm }
@media print { :root { color-scheme: light; --page: #ffffff; --ink: #000000; --soft: #444444; --line: #bbbbbb;
  --stripe: rgba(70, 90, 110, .09) }
  body { font-size: 10.5pt; print-color-adjust: exact; -webkit-print-color-adjust: exact }
  main { max-width: none; padding: 0 }
  h1 { margin-top: 0 }
  figure, .wide { overflow: visible }
  svg { min-width: 0 }
  thead { display: table-header-group } }
</style>
";

//! How charts look.

/// The style of all drawings. It has no variables, so that programs that know no more of CSS than classes draw the same.
pub const STYLE: &str = "<style>
svg text { font: 12px system-ui, 'Segoe UI', Roboto, 'DejaVu Sans', sans-serif; fill: #1b2026 }
svg .title { font-size: 17px; font-weight: 600 }
svg .head { font-weight: 600 }
svg .mark { text-anchor: middle; fill: #5b6670 }
svg .end { text-anchor: end; fill: #5b6670 }
svg .cost { text-anchor: end }
svg .page { fill: #ffffff }
svg .line { stroke: #d5dbe0 }
svg .stripe0 { fill: none }
svg .stripe1 { fill: #465a6e; fill-opacity: .07 }
svg .bar { fill: #86add8 }
svg .critical { fill: #1d5695 }
svg .slack { stroke: #8d9aa6; stroke-width: 1.5 }
svg .deadline { stroke: #b03a24; stroke-width: 1.5 }
svg .limit { stroke: #b03a24; stroke-dasharray: 5 3 }
svg .used { fill: #bdd4ec; fill-opacity: .75; stroke: #3b71ab }
svg .link { fill: none; stroke: #5b6670; stroke-opacity: .7 }
svg .tip { fill: #5b6670 }
@media screen and (prefers-color-scheme: dark) {
  svg text { fill: #e4e8eb }
  svg .mark, svg .end { fill: #a2adb7 }
  svg .page { fill: #14171a }
  svg .line { stroke: #363e46 }
  svg .stripe1 { fill: #bed2e6 }
  svg .bar { fill: #4a77a8 }
  svg .critical { fill: #a5cdf8 }
  svg .slack { stroke: #7f8c98 }
  svg .deadline, svg .limit { stroke: #f1896f }
  svg .link { stroke: #a2adb7 }
  svg .tip { fill: #a2adb7 }
  svg .used { fill: #29486a; stroke: #7db0e4 } }
@media print {
  svg text { fill: #000000 }
  svg .mark, svg .end { fill: #444444 }
  svg .line { stroke: #bbbbbb }
  svg { print-color-adjust: exact; -webkit-print-color-adjust: exact } }
</style>
";

//! How pictures look.

/// How each class is drawn, in light and in dark, and the tips of arrows. All of it is under one class and behind one prefix:
/// another picture or a page has nothing of the same name.
pub(crate) const LOOK: &str = "<style>
.fbl .back{fill:#fff}
.fbl text{fill:#222;font:14px system-ui,sans-serif}
.fbl .head{font-weight:600}
.fbl .note,.fbl .name{font-size:12px}
.fbl .at{font-size:11px;text-anchor:middle}
.fbl .at,.fbl .name{stroke:#fff;stroke-width:3px;paint-order:stroke}
.fbl .at.gone{fill:#444;stroke:none}
.fbl .line{stroke:#767676;stroke-width:1.5}
.fbl .down{stroke-dasharray:6 5}
.fbl .message{stroke:#767676;stroke-width:1.2;fill:none;marker-end:url(#fbl-tip)}
.fbl .message.undone{stroke-dasharray:2 2}
.fbl .message.again{marker-start:url(#fbl-dot)}
.fbl .in-flight{stroke-dasharray:2 3;marker-end:none}
.fbl .control{stroke-width:.8;stroke-dasharray:5 3}
.fbl .orphan{stroke:#c44e00;stroke-width:4}
.fbl .path{stroke:#c44e00;stroke-width:2.5;marker-end:url(#fbl-path-tip)}
.fbl .line.path,.fbl .leaving{marker-end:none}
.fbl .tip{fill:#767676}
.fbl .path-tip{fill:#c44e00}
.fbl .send{fill:#fff;stroke:#444;stroke-width:1.5}
.fbl .receipt{fill:#0072b2;stroke:#0072b2}
.fbl .recorded{fill:#fff;stroke-width:3}
.fbl .lost{fill:none;stroke:#c44e00;stroke-width:4}
.fbl .crossed,.fbl .send.undone,.fbl .receipt.undone{fill:#fff;stroke:#767676;stroke-width:1.5}
.fbl .crossed{pointer-events:none}
.fbl .crossed.number{stroke:#919191;stroke-width:1}
.fbl .strike{fill:#c44e00}
.fbl .recovery{fill:#fff;stroke:#00795a;stroke-width:2.5}
.fbl .checkpoint,.fbl .store{fill:#222}
.fbl .hold{fill:none;stroke:#0072b2;stroke-width:2}
.fbl .tell,.fbl .told{fill:none;stroke:#444;stroke-width:1.5}
.fbl .moment{fill:none;stroke:#222;stroke-width:1.5;stroke-dasharray:9 3 2 3}
.fbl .to-come text{fill:#767676}
.fbl .to-come .send,.fbl .receipt.to-come,.fbl .to-come .hold{fill:#fff;stroke:#949494;stroke-width:1.5}
.fbl .to-come .recovery{fill:#fff;stroke:#949494;stroke-width:1.5}
.fbl .to-come .store{fill:#949494}
.fbl .to-come .message,.fbl .to-come .tell,.fbl .to-come .told{stroke:#949494}
@media(prefers-color-scheme:dark){
.fbl .back{fill:#161616}
.fbl text{fill:#eee}
.fbl .at,.fbl .name{stroke:#161616}
.fbl .at.gone{fill:#ccc;stroke:none}
.fbl .line,.fbl .message{stroke:#9a9a9a}
.fbl .tip{fill:#9a9a9a}
.fbl .orphan,.fbl .path,.fbl .lost{stroke:#ff8a3c}
.fbl .path-tip,.fbl .strike{fill:#ff8a3c}
.fbl .send{fill:#161616;stroke:#bbb}
.fbl .receipt{fill:#56b4e9;stroke:#56b4e9}
.fbl .recorded{fill:#161616}
.fbl .lost{fill:none;stroke:#ff8a3c}
.fbl .crossed,.fbl .send.undone,.fbl .receipt.undone{fill:#161616;stroke:#9a9a9a}
.fbl .crossed.number{stroke:#707070}
.fbl .recovery{fill:#161616;stroke:#3fbf98}
.fbl .checkpoint,.fbl .store{fill:#eee}
.fbl .hold{stroke:#56b4e9}
.fbl .tell,.fbl .told{stroke:#bbb}
.fbl .moment{stroke:#eee}
.fbl .to-come text{fill:#8a8a8a}
.fbl .to-come .send,.fbl .receipt.to-come,.fbl .to-come .hold{fill:#161616;stroke:#6e6e6e}
.fbl .to-come .recovery{fill:#161616;stroke:#6e6e6e}
.fbl .to-come .store{fill:#6e6e6e}
.fbl .to-come .message,.fbl .to-come .tell,.fbl .to-come .told{stroke:#6e6e6e}
}
</style>
<defs>
<marker id='fbl-tip' class='tip' viewBox='0 0 8 8' refX='14' refY='4' markerWidth='8' markerHeight='8' orient='auto'><path d='M0 0L8 4L0 8Z'/></marker>
<marker id='fbl-dot' class='tip' viewBox='0 0 8 8' refX='-8' refY='4' markerWidth='8' markerHeight='8' orient='auto'><circle cx='4' cy='4' r='3'/></marker>
<marker id='fbl-path-tip' class='path-tip' viewBox='0 0 8 8' refX='13' refY='4' markerWidth='5' markerHeight='5' orient='auto'><path d='M0 0L8 4L0 8Z'/></marker>
</defs>
";

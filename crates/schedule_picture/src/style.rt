//! The fixed parts of a picture's text. They are this project's choice.

/// The looks of a picture's parts, with a colour for each module that a rack may have. Text on any
/// of these colours is black. In a browser that wants dark pages the paper and the grounds are
/// dark, and the text on the paper is light.
pub const STYLE: &str = "\
<style>\n\
text{font:12px sans-serif;text-anchor:middle}\n\
.heading{font:bold 16px sans-serif;text-anchor:start}\n\
.number{fill:#595959;font-size:10px}\n\
.transfer{font-size:9px}\n\
.note{text-anchor:start}\n\
.paper{fill:#fff}\n\
.lane rect{fill:#eee}\n\
.lane text{fill:#595959}\n\
.busiest rect{fill:#eee;stroke:#000;stroke-width:2}\n\
.busiest text{font-weight:bold}\n\
.change{stroke:#000;stroke-dasharray:3 3}\n\
.m0{fill:#56b4e9}.m1{fill:#e08020}.m2{fill:#20c0a0}.m3{fill:#ffffa0}\n\
.m4{fill:#c000ff}.m5{fill:#6080a0}.m6{fill:#ffc000}.m7{fill:#ff6080}\n\
.m8{fill:#60c0c0}.m9{fill:#40a0a0}.m10{fill:#c0e0ff}.m11{fill:#ffff20}\n\
.m12{fill:#808040}.m13{fill:#608060}.m14{fill:#ffc080}.m15{fill:#ffe0c0}\n\
.m16{fill:#00a080}.m17{fill:#e0c0a0}.m18{fill:#e0e060}.m19{fill:#e0a000}\n\
.m20{fill:#c080a0}.m21{fill:#a060c0}.m22{fill:#808000}.m23{fill:#ff80e0}\n\
.m24{fill:#ffe0a0}.m25{fill:#c060e0}.m26{fill:#ffa060}.m27{fill:#00a060}\n\
.m28{fill:#e0a080}.m29{fill:#00a0c0}.m30{fill:#e06080}.m31{fill:#e060c0}\n\
@media (prefers-color-scheme:dark){\n\
svg{background:#111}\n\
.paper{fill:#111}\n\
.heading,.note,.busiest text{fill:#eee}\n\
.number,.lane text{fill:#aaa}\n\
.lane rect{fill:#333}\n\
.busiest rect{fill:#333;stroke:#fff}\n\
.change{stroke:#eee}\n\
}\n\
</style>\n\
";

/// What the picture's signs and words mean.
pub const EXPLAINED: &str = "\
<g class='lane'><rect y='8' width='32' height='28'/></g><rect class='m1' x='2' y='10' \
width='28' height='24'/>\n\
<text x='16' y='22'>&#8594;1</text><text class='transfer' x='16' y='32'>7</text>\
<text class='note' x='44' y='26'>Transfer 7: its words go to module 1 (&#8592;1: they come from \
there). A cell has its partner's colour, as labels show it.</text>\n\
<g class='busiest'><rect y='44' width='32' height='28'/></g>\
<text class='note' x='44' y='62'>Framed: the busiest link. No two of its transfers share a \
setting, so it wants a setting for each.</text>\n\
<text class='note' y='92'>Columns are settings of the switch. In a module's row, link 0 \
above starts transfers, and link 3 below answers them.</text>\n\
<text class='note' y='110'>Dashed: here the switch changes, to join other pairs of links. \
A link needs a change for each of its partners.</text>\n\
";

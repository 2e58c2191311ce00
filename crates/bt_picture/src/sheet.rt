// The style sheet of every picture: a class for each style, and the patterns that fill its hatched ones.
ghost use Rattle.std.specs.Prelude.{◌≡◌};
ghost use Rattle.bt_picture.specs.Sheet.{sheet_text};

/// The style sheet.
///
/// Its eight fills are those that Okabe and Ito chose to be told apart by every eye: orange, sky blue, bluish green, yellow,
/// blue, vermilion, reddish purple and, in the place of black, grey. The blue is lighter than theirs, so that black letters
/// have a contrast of 4.9 at least with each fill; their hatches are white, and dark on yellow. The tints are pale, and the
/// plate is white, with letters of the same black.
pub const SHEET: &str = "\
<style type='text/css'>
text{font-family:sans-serif;font-size:220px}
.title{font-size:320px;font-weight:bold}.head{font-weight:bold}.small{font-size:160px}
.lane{fill:url(#empty);stroke:#888;stroke-width:8px}.heavy{fill:url(#empty);stroke:#000;stroke-width:50px}
.band{fill:#eee;stroke:#666;stroke-width:8px}.shade{fill:#f3f3f3}.plate{fill:#fff}.mark{fill:#000}.edge{fill:none;stroke:#000;stroke-width:20px}
.thin{fill:none;stroke:#888;stroke-width:12px}.line{fill:none;stroke:#000;stroke-width:20px}.arrow{fill:none;stroke:#000;stroke-width:20px;marker-end:url(#tip)}
.f0{fill:#e69f00}.f1{fill:#56b4e9}.f2{fill:#009e73}.f3{fill:#f0e442}.f4{fill:#4477dd}.f5{fill:#d55e00}.f6{fill:#cc79a7}.f7{fill:#a6a6a6}
.f8{fill:url(#p8)}.f9{fill:url(#p9)}.f10{fill:url(#p10)}.f11{fill:url(#p11)}.f12{fill:url(#p12)}.f13{fill:url(#p13)}.f14{fill:url(#p14)}.f15{fill:url(#p15)}.f16{fill:url(#p16)}.f17{fill:url(#p17)}.f18{fill:url(#p18)}.f19{fill:url(#p19)}.f20{fill:url(#p20)}.f21{fill:url(#p21)}.f22{fill:url(#p22)}.f23{fill:url(#p23)}.f24{fill:url(#p24)}.f25{fill:url(#p25)}.f26{fill:url(#p26)}.f27{fill:url(#p27)}.f28{fill:url(#p28)}.f29{fill:url(#p29)}.f30{fill:url(#p30)}.f31{fill:url(#p31)}
[class^=f]{stroke:#000;stroke-width:6px}
.t0{fill:#dce9f7}.t1{fill:#fde2c4}.t2{fill:#dff0d8}.t3{fill:#f6d8e6}.t4{fill:#fbf6c2}.t5{fill:#e3daf3}.t6{fill:#cfeeea}.t7{fill:#ecdfd0}
.t0,.t1,.t2,.t3,.t4,.t5,.t6,.t7{stroke:#666;stroke-width:8px}
.free{fill:#f6f6f6;stroke:#ccc;stroke-width:8px}
.fault{fill:none;stroke:#c00000;stroke-width:40px;stroke-dasharray:80px 50px}
g:hover rect{stroke:#000;stroke-width:40px}
</style>
<defs>
<marker id='tip' viewBox='0 0 8 8' refX='8' refY='4' markerWidth='8' markerHeight='8' orient='auto'><path d='M0 0l8 4l-8 4z'/></marker>
<pattern id='empty' width='120' height='120' patternUnits='userSpaceOnUse' patternTransform='rotate(45)'><path fill='#fff' d='M0 0h120v120H0z'/><path fill='#ddd' d='M0 0h16v120H0z'/></pattern>
<pattern id='p8' width='140' height='140' patternUnits='userSpaceOnUse' patternTransform='rotate(45)'><path fill='#e69f00' d='M0 0h140v140H0z'/><path fill='#fff' fill-opacity='.6' d='M0 0h40v140H0z'/></pattern>
<pattern id='p9' width='140' height='140' patternUnits='userSpaceOnUse' patternTransform='rotate(45)'><path fill='#56b4e9' d='M0 0h140v140H0z'/><path fill='#fff' fill-opacity='.6' d='M0 0h40v140H0z'/></pattern>
<pattern id='p10' width='140' height='140' patternUnits='userSpaceOnUse' patternTransform='rotate(45)'><path fill='#009e73' d='M0 0h140v140H0z'/><path fill='#fff' fill-opacity='.6' d='M0 0h40v140H0z'/></pattern>
<pattern id='p11' width='140' height='140' patternUnits='userSpaceOnUse' patternTransform='rotate(45)'><path fill='#f0e442' d='M0 0h140v140H0z'/><path fill='#a09500' d='M0 0h40v140H0z'/></pattern>
<pattern id='p12' width='140' height='140' patternUnits='userSpaceOnUse' patternTransform='rotate(45)'><path fill='#4477dd' d='M0 0h140v140H0z'/><path fill='#fff' fill-opacity='.6' d='M0 0h40v140H0z'/></pattern>
<pattern id='p13' width='140' height='140' patternUnits='userSpaceOnUse' patternTransform='rotate(45)'><path fill='#d55e00' d='M0 0h140v140H0z'/><path fill='#fff' fill-opacity='.6' d='M0 0h40v140H0z'/></pattern>
<pattern id='p14' width='140' height='140' patternUnits='userSpaceOnUse' patternTransform='rotate(45)'><path fill='#cc79a7' d='M0 0h140v140H0z'/><path fill='#fff' fill-opacity='.6' d='M0 0h40v140H0z'/></pattern>
<pattern id='p15' width='140' height='140' patternUnits='userSpaceOnUse' patternTransform='rotate(45)'><path fill='#a6a6a6' d='M0 0h140v140H0z'/><path fill='#fff' fill-opacity='.6' d='M0 0h40v140H0z'/></pattern>
<pattern id='p16' width='140' height='140' patternUnits='userSpaceOnUse' patternTransform='rotate(-45)'><path fill='#e69f00' d='M0 0h140v140H0z'/><path fill='#fff' fill-opacity='.6' d='M0 0h40v140H0z'/></pattern>
<pattern id='p17' width='140' height='140' patternUnits='userSpaceOnUse' patternTransform='rotate(-45)'><path fill='#56b4e9' d='M0 0h140v140H0z'/><path fill='#fff' fill-opacity='.6' d='M0 0h40v140H0z'/></pattern>
<pattern id='p18' width='140' height='140' patternUnits='userSpaceOnUse' patternTransform='rotate(-45)'><path fill='#009e73' d='M0 0h140v140H0z'/><path fill='#fff' fill-opacity='.6' d='M0 0h40v140H0z'/></pattern>
<pattern id='p19' width='140' height='140' patternUnits='userSpaceOnUse' patternTransform='rotate(-45)'><path fill='#f0e442' d='M0 0h140v140H0z'/><path fill='#a09500' d='M0 0h40v140H0z'/></pattern>
<pattern id='p20' width='140' height='140' patternUnits='userSpaceOnUse' patternTransform='rotate(-45)'><path fill='#4477dd' d='M0 0h140v140H0z'/><path fill='#fff' fill-opacity='.6' d='M0 0h40v140H0z'/></pattern>
<pattern id='p21' width='140' height='140' patternUnits='userSpaceOnUse' patternTransform='rotate(-45)'><path fill='#d55e00' d='M0 0h140v140H0z'/><path fill='#fff' fill-opacity='.6' d='M0 0h40v140H0z'/></pattern>
<pattern id='p22' width='140' height='140' patternUnits='userSpaceOnUse' patternTransform='rotate(-45)'><path fill='#cc79a7' d='M0 0h140v140H0z'/><path fill='#fff' fill-opacity='.6' d='M0 0h40v140H0z'/></pattern>
<pattern id='p23' width='140' height='140' patternUnits='userSpaceOnUse' patternTransform='rotate(-45)'><path fill='#a6a6a6' d='M0 0h140v140H0z'/><path fill='#fff' fill-opacity='.6' d='M0 0h40v140H0z'/></pattern>
<pattern id='p24' width='140' height='140' patternUnits='userSpaceOnUse' patternTransform='rotate(0)'><path fill='#e69f00' d='M0 0h140v140H0z'/><path fill='#fff' fill-opacity='.6' d='M0 0h140v36H36v104H0z'/></pattern>
<pattern id='p25' width='140' height='140' patternUnits='userSpaceOnUse' patternTransform='rotate(0)'><path fill='#56b4e9' d='M0 0h140v140H0z'/><path fill='#fff' fill-opacity='.6' d='M0 0h140v36H36v104H0z'/></pattern>
<pattern id='p26' width='140' height='140' patternUnits='userSpaceOnUse' patternTransform='rotate(0)'><path fill='#009e73' d='M0 0h140v140H0z'/><path fill='#fff' fill-opacity='.6' d='M0 0h140v36H36v104H0z'/></pattern>
<pattern id='p27' width='140' height='140' patternUnits='userSpaceOnUse' patternTransform='rotate(0)'><path fill='#f0e442' d='M0 0h140v140H0z'/><path fill='#a09500' d='M0 0h140v36H36v104H0z'/></pattern>
<pattern id='p28' width='140' height='140' patternUnits='userSpaceOnUse' patternTransform='rotate(0)'><path fill='#4477dd' d='M0 0h140v140H0z'/><path fill='#fff' fill-opacity='.6' d='M0 0h140v36H36v104H0z'/></pattern>
<pattern id='p29' width='140' height='140' patternUnits='userSpaceOnUse' patternTransform='rotate(0)'><path fill='#d55e00' d='M0 0h140v140H0z'/><path fill='#fff' fill-opacity='.6' d='M0 0h140v36H36v104H0z'/></pattern>
<pattern id='p30' width='140' height='140' patternUnits='userSpaceOnUse' patternTransform='rotate(0)'><path fill='#cc79a7' d='M0 0h140v140H0z'/><path fill='#fff' fill-opacity='.6' d='M0 0h140v36H36v104H0z'/></pattern>
<pattern id='p31' width='140' height='140' patternUnits='userSpaceOnUse' patternTransform='rotate(0)'><path fill='#a6a6a6' d='M0 0h140v140H0z'/><path fill='#fff' fill-opacity='.6' d='M0 0h140v36H36v104H0z'/></pattern>
</defs>
<rect width='100%' height='100%' fill='#fff'/>
";

/// The style sheet as it stands in a picture, with its last newline.
pub(crate) fn sheet() -> &'static str
    ensures sheet { result.now ≡ sheet_text }
{
    SHEET
}

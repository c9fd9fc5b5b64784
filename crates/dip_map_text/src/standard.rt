//! The standard map.

/// The text of the standard map: 75 provinces, 34 centres, 7 powers and 22 units at the opening.
///
/// A map's file is TOML. `name` is the map's name. A power has its `home` centres and its `units` at the opening. A province has a full
/// `name`, a `kind` (`inland`, `coast` or `sea`), may be a `centre`, and has where an `army` goes from it and where a `fleet` goes, or that
/// for each of its `coasts`. Each neighbour names its neighbour back.
pub const STANDARD: &str = "name = \"standard\"
[powers.austria]
home = [\"bud\", \"tri\", \"vie\"]
units = [\"A bud\", \"F tri\", \"A vie\"]
[powers.england]
home = [\"edi\", \"lon\", \"lvp\"]
units = [\"F edi\", \"F lon\", \"A lvp\"]
[powers.france]
home = [\"bre\", \"mar\", \"par\"]
units = [\"F bre\", \"A mar\", \"A par\"]
[powers.germany]
home = [\"ber\", \"kie\", \"mun\"]
units = [\"A ber\", \"F kie\", \"A mun\"]
[powers.italy]
home = [\"nap\", \"rom\", \"ven\"]
units = [\"F nap\", \"A rom\", \"A ven\"]
[powers.russia]
home = [\"mos\", \"sev\", \"stp\", \"war\"]
units = [\"A mos\", \"F sev\", \"F stp/sc\", \"A war\"]
[powers.turkey]
home = [\"ank\", \"con\", \"smy\"]
units = [\"F ank\", \"A con\", \"A smy\"]
[provinces.adr]
name = \"Adriatic Sea\"
kind = \"sea\"
fleet = [\"alb\", \"apu\", \"ion\", \"tri\", \"ven\"]
[provinces.aeg]
name = \"Aegean Sea\"
kind = \"sea\"
fleet = [\"bul/sc\", \"con\", \"eas\", \"gre\", \"ion\", \"smy\"]
[provinces.alb]
name = \"Albania\"
kind = \"coast\"
army = [\"gre\", \"ser\", \"tri\"]
fleet = [\"adr\", \"gre\", \"ion\", \"tri\"]
[provinces.ank]
name = \"Ankara\"
kind = \"coast\"
centre = true
army = [\"arm\", \"con\", \"smy\"]
fleet = [\"arm\", \"bla\", \"con\"]
[provinces.apu]
name = \"Apulia\"
kind = \"coast\"
army = [\"nap\", \"rom\", \"ven\"]
fleet = [\"adr\", \"ion\", \"nap\", \"ven\"]
[provinces.arm]
name = \"Armenia\"
kind = \"coast\"
army = [\"ank\", \"sev\", \"smy\", \"syr\"]
fleet = [\"ank\", \"bla\", \"sev\"]
[provinces.bal]
name = \"Baltic Sea\"
kind = \"sea\"
fleet = [\"ber\", \"bot\", \"den\", \"kie\", \"lvn\", \"pru\", \"swe\"]
[provinces.bar]
name = \"Barents Sea\"
kind = \"sea\"
fleet = [\"nwg\", \"nwy\", \"stp/nc\"]
[provinces.bel]
name = \"Belgium\"
kind = \"coast\"
centre = true
army = [\"bur\", \"hol\", \"pic\", \"ruh\"]
fleet = [\"eng\", \"hol\", \"nth\", \"pic\"]
[provinces.ber]
name = \"Berlin\"
kind = \"coast\"
centre = true
army = [\"kie\", \"mun\", \"pru\", \"sil\"]
fleet = [\"bal\", \"kie\", \"pru\"]
[provinces.bla]
name = \"Black Sea\"
kind = \"sea\"
fleet = [\"ank\", \"arm\", \"bul/ec\", \"con\", \"rum\", \"sev\"]
[provinces.boh]
name = \"Bohemia\"
kind = \"inland\"
army = [\"gal\", \"mun\", \"sil\", \"tyr\", \"vie\"]
[provinces.bot]
name = \"Gulf of Bothnia\"
kind = \"sea\"
fleet = [\"bal\", \"fin\", \"lvn\", \"stp/sc\", \"swe\"]
[provinces.bre]
name = \"Brest\"
kind = \"coast\"
centre = true
army = [\"gas\", \"par\", \"pic\"]
fleet = [\"eng\", \"gas\", \"mao\", \"pic\"]
[provinces.bud]
name = \"Budapest\"
kind = \"inland\"
centre = true
army = [\"gal\", \"rum\", \"ser\", \"tri\", \"vie\"]
[provinces.bul]
name = \"Bulgaria\"
kind = \"coast\"
centre = true
army = [\"con\", \"gre\", \"rum\", \"ser\"]
[provinces.bul.coasts]
ec = [\"bla\", \"con\", \"rum\"]
sc = [\"aeg\", \"con\", \"gre\"]
[provinces.bur]
name = \"Burgundy\"
kind = \"inland\"
army = [\"bel\", \"gas\", \"mar\", \"mun\", \"par\", \"pic\", \"ruh\"]
[provinces.cly]
name = \"Clyde\"
kind = \"coast\"
army = [\"edi\", \"lvp\"]
fleet = [\"edi\", \"lvp\", \"nao\", \"nwg\"]
[provinces.con]
name = \"Constantinople\"
kind = \"coast\"
centre = true
army = [\"ank\", \"bul\", \"smy\"]
fleet = [\"aeg\", \"ank\", \"bla\", \"bul/ec\", \"bul/sc\", \"smy\"]
[provinces.den]
name = \"Denmark\"
kind = \"coast\"
centre = true
army = [\"kie\", \"swe\"]
fleet = [\"bal\", \"hel\", \"kie\", \"nth\", \"ska\", \"swe\"]
[provinces.eas]
name = \"Eastern Mediterranean\"
kind = \"sea\"
fleet = [\"aeg\", \"ion\", \"smy\", \"syr\"]
[provinces.edi]
name = \"Edinburgh\"
kind = \"coast\"
centre = true
army = [\"cly\", \"lvp\", \"yor\"]
fleet = [\"cly\", \"nth\", \"nwg\", \"yor\"]
[provinces.eng]
name = \"English Channel\"
kind = \"sea\"
fleet = [\"bel\", \"bre\", \"iri\", \"lon\", \"mao\", \"nth\", \"pic\", \"wal\"]
[provinces.fin]
name = \"Finland\"
kind = \"coast\"
army = [\"nwy\", \"stp\", \"swe\"]
fleet = [\"bot\", \"stp/sc\", \"swe\"]
[provinces.gal]
name = \"Galicia\"
kind = \"inland\"
army = [\"boh\", \"bud\", \"rum\", \"sil\", \"ukr\", \"vie\", \"war\"]
[provinces.gas]
name = \"Gascony\"
kind = \"coast\"
army = [\"bre\", \"bur\", \"mar\", \"par\", \"spa\"]
fleet = [\"bre\", \"mao\", \"spa/nc\"]
[provinces.gre]
name = \"Greece\"
kind = \"coast\"
centre = true
army = [\"alb\", \"bul\", \"ser\"]
fleet = [\"aeg\", \"alb\", \"bul/sc\", \"ion\"]
[provinces.hel]
name = \"Helgoland Bight\"
kind = \"sea\"
fleet = [\"den\", \"hol\", \"kie\", \"nth\"]
[provinces.hol]
name = \"Holland\"
kind = \"coast\"
centre = true
army = [\"bel\", \"kie\", \"ruh\"]
fleet = [\"bel\", \"hel\", \"kie\", \"nth\"]
[provinces.ion]
name = \"Ionian Sea\"
kind = \"sea\"
fleet = [\"adr\", \"aeg\", \"alb\", \"apu\", \"eas\", \"gre\", \"nap\", \"tun\", \"tys\"]
[provinces.iri]
name = \"Irish Sea\"
kind = \"sea\"
fleet = [\"eng\", \"lvp\", \"mao\", \"nao\", \"wal\"]
[provinces.kie]
name = \"Kiel\"
kind = \"coast\"
centre = true
army = [\"ber\", \"den\", \"hol\", \"mun\", \"ruh\"]
fleet = [\"bal\", \"ber\", \"den\", \"hel\", \"hol\"]
[provinces.lon]
name = \"London\"
kind = \"coast\"
centre = true
army = [\"wal\", \"yor\"]
fleet = [\"eng\", \"nth\", \"wal\", \"yor\"]
[provinces.lvn]
name = \"Livonia\"
kind = \"coast\"
army = [\"mos\", \"pru\", \"stp\", \"war\"]
fleet = [\"bal\", \"bot\", \"pru\", \"stp/sc\"]
[provinces.lvp]
name = \"Liverpool\"
kind = \"coast\"
centre = true
army = [\"cly\", \"edi\", \"wal\", \"yor\"]
fleet = [\"cly\", \"iri\", \"nao\", \"wal\"]
[provinces.lyo]
name = \"Gulf of Lyon\"
kind = \"sea\"
fleet = [\"mar\", \"pie\", \"spa/sc\", \"tus\", \"tys\", \"wes\"]
[provinces.mao]
name = \"Mid-Atlantic Ocean\"
kind = \"sea\"
fleet = [\"bre\", \"eng\", \"gas\", \"iri\", \"naf\", \"nao\", \"por\", \"spa/nc\", \"spa/sc\", \"wes\"]
[provinces.mar]
name = \"Marseilles\"
kind = \"coast\"
centre = true
army = [\"bur\", \"gas\", \"pie\", \"spa\"]
fleet = [\"lyo\", \"pie\", \"spa/sc\"]
[provinces.mos]
name = \"Moscow\"
kind = \"inland\"
centre = true
army = [\"lvn\", \"sev\", \"stp\", \"ukr\", \"war\"]
[provinces.mun]
name = \"Munich\"
kind = \"inland\"
centre = true
army = [\"ber\", \"boh\", \"bur\", \"kie\", \"ruh\", \"sil\", \"tyr\"]
[provinces.naf]
name = \"North Africa\"
kind = \"coast\"
army = [\"tun\"]
fleet = [\"mao\", \"tun\", \"wes\"]
[provinces.nao]
name = \"North Atlantic Ocean\"
kind = \"sea\"
fleet = [\"cly\", \"iri\", \"lvp\", \"mao\", \"nwg\"]
[provinces.nap]
name = \"Naples\"
kind = \"coast\"
centre = true
army = [\"apu\", \"rom\"]
fleet = [\"apu\", \"ion\", \"rom\", \"tys\"]
[provinces.nth]
name = \"North Sea\"
kind = \"sea\"
fleet = [\"bel\", \"den\", \"edi\", \"eng\", \"hel\", \"hol\", \"lon\", \"nwg\", \"nwy\", \"ska\", \"yor\"]
[provinces.nwg]
name = \"Norwegian Sea\"
kind = \"sea\"
fleet = [\"bar\", \"cly\", \"edi\", \"nao\", \"nth\", \"nwy\"]
[provinces.nwy]
name = \"Norway\"
kind = \"coast\"
centre = true
army = [\"fin\", \"stp\", \"swe\"]
fleet = [\"bar\", \"nth\", \"nwg\", \"ska\", \"stp/nc\", \"swe\"]
[provinces.par]
name = \"Paris\"
kind = \"inland\"
centre = true
army = [\"bre\", \"bur\", \"gas\", \"pic\"]
[provinces.pic]
name = \"Picardy\"
kind = \"coast\"
army = [\"bel\", \"bre\", \"bur\", \"par\"]
fleet = [\"bel\", \"bre\", \"eng\"]
[provinces.pie]
name = \"Piedmont\"
kind = \"coast\"
army = [\"mar\", \"tus\", \"tyr\", \"ven\"]
fleet = [\"lyo\", \"mar\", \"tus\"]
[provinces.por]
name = \"Portugal\"
kind = \"coast\"
centre = true
army = [\"spa\"]
fleet = [\"mao\", \"spa/nc\", \"spa/sc\"]
[provinces.pru]
name = \"Prussia\"
kind = \"coast\"
army = [\"ber\", \"lvn\", \"sil\", \"war\"]
fleet = [\"bal\", \"ber\", \"lvn\"]
[provinces.rom]
name = \"Rome\"
kind = \"coast\"
centre = true
army = [\"apu\", \"nap\", \"tus\", \"ven\"]
fleet = [\"nap\", \"tus\", \"tys\"]
[provinces.ruh]
name = \"Ruhr\"
kind = \"inland\"
army = [\"bel\", \"bur\", \"hol\", \"kie\", \"mun\"]
[provinces.rum]
name = \"Rumania\"
kind = \"coast\"
centre = true
army = [\"bud\", \"bul\", \"gal\", \"ser\", \"sev\", \"ukr\"]
fleet = [\"bla\", \"bul/ec\", \"sev\"]
[provinces.ser]
name = \"Serbia\"
kind = \"inland\"
centre = true
army = [\"alb\", \"bud\", \"bul\", \"gre\", \"rum\", \"tri\"]
[provinces.sev]
name = \"Sevastopol\"
kind = \"coast\"
centre = true
army = [\"arm\", \"mos\", \"rum\", \"ukr\"]
fleet = [\"arm\", \"bla\", \"rum\"]
[provinces.sil]
name = \"Silesia\"
kind = \"inland\"
army = [\"ber\", \"boh\", \"gal\", \"mun\", \"pru\", \"war\"]
[provinces.ska]
name = \"Skagerrak\"
kind = \"sea\"
fleet = [\"den\", \"nth\", \"nwy\", \"swe\"]
[provinces.smy]
name = \"Smyrna\"
kind = \"coast\"
centre = true
army = [\"ank\", \"arm\", \"con\", \"syr\"]
fleet = [\"aeg\", \"con\", \"eas\", \"syr\"]
[provinces.spa]
name = \"Spain\"
kind = \"coast\"
centre = true
army = [\"gas\", \"mar\", \"por\"]
[provinces.spa.coasts]
nc = [\"gas\", \"mao\", \"por\"]
sc = [\"lyo\", \"mao\", \"mar\", \"por\", \"wes\"]
[provinces.stp]
name = \"St Petersburg\"
kind = \"coast\"
centre = true
army = [\"fin\", \"lvn\", \"mos\", \"nwy\"]
[provinces.stp.coasts]
nc = [\"bar\", \"nwy\"]
sc = [\"bot\", \"fin\", \"lvn\"]
[provinces.swe]
name = \"Sweden\"
kind = \"coast\"
centre = true
army = [\"den\", \"fin\", \"nwy\"]
fleet = [\"bal\", \"bot\", \"den\", \"fin\", \"nwy\", \"ska\"]
[provinces.syr]
name = \"Syria\"
kind = \"coast\"
army = [\"arm\", \"smy\"]
fleet = [\"eas\", \"smy\"]
[provinces.tri]
name = \"Trieste\"
kind = \"coast\"
centre = true
army = [\"alb\", \"bud\", \"ser\", \"tyr\", \"ven\", \"vie\"]
fleet = [\"adr\", \"alb\", \"ven\"]
[provinces.tun]
name = \"Tunis\"
kind = \"coast\"
centre = true
army = [\"naf\"]
fleet = [\"ion\", \"naf\", \"tys\", \"wes\"]
[provinces.tus]
name = \"Tuscany\"
kind = \"coast\"
army = [\"pie\", \"rom\", \"ven\"]
fleet = [\"lyo\", \"pie\", \"rom\", \"tys\"]
[provinces.tyr]
name = \"Tyrolia\"
kind = \"inland\"
army = [\"boh\", \"mun\", \"pie\", \"tri\", \"ven\", \"vie\"]
[provinces.tys]
name = \"Tyrrhenian Sea\"
kind = \"sea\"
fleet = [\"ion\", \"lyo\", \"nap\", \"rom\", \"tun\", \"tus\", \"wes\"]
[provinces.ukr]
name = \"Ukraine\"
kind = \"inland\"
army = [\"gal\", \"mos\", \"rum\", \"sev\", \"war\"]
[provinces.ven]
name = \"Venice\"
kind = \"coast\"
centre = true
army = [\"apu\", \"pie\", \"rom\", \"tri\", \"tus\", \"tyr\"]
fleet = [\"adr\", \"apu\", \"tri\"]
[provinces.vie]
name = \"Vienna\"
kind = \"inland\"
centre = true
army = [\"boh\", \"bud\", \"gal\", \"tri\", \"tyr\"]
[provinces.wal]
name = \"Wales\"
kind = \"coast\"
army = [\"lon\", \"lvp\", \"yor\"]
fleet = [\"eng\", \"iri\", \"lon\", \"lvp\"]
[provinces.war]
name = \"Warsaw\"
kind = \"inland\"
centre = true
army = [\"gal\", \"lvn\", \"mos\", \"pru\", \"sil\", \"ukr\"]
[provinces.wes]
name = \"Western Mediterranean\"
kind = \"sea\"
fleet = [\"lyo\", \"mao\", \"naf\", \"spa/sc\", \"tun\", \"tys\"]
[provinces.yor]
name = \"Yorkshire\"
kind = \"coast\"
army = [\"edi\", \"lon\", \"lvp\", \"wal\"]
fleet = [\"edi\", \"lon\", \"nth\"]
";
